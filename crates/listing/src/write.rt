// Bytes written behind one another in a lent buffer, and whether all of them stand in it.
ghost use Rattle.std.specs.Prelude.{◌≡◌, [], ◌∷◌, length};
ghost use Rattle.listing.specs.Writing.{listed};
ghost use Rattle.listing.specs.Internal.{SameOut, Puts};

use crate::Text;

impl<'a> Text<'a> {
    pub fn put_byte(&mut self, b: u8)
        ensures same { SameOut self.old self.new }
        ensures puts { Puts self.old (b ∷ []) self.new }
    {
        if self.at < self.out.len() {
            self.out[self.at] = b;
            self.at += 1;
        } else {
            self.at = self.out.len() + 1;
        }
    }

    pub fn put_bytes(&mut self, bytes: &[u8])
        ensures same { SameOut self.old self.new }
        ensures puts { Puts self.old bytes.now self.new }
    {
        for b in bytes {
            self.put_byte(*b);
        }
    }

    // How many bytes the text has, where all of it stands in the buffer.
    pub fn listed(&self) -> Option<usize>
        ensures { result ≡ listed (length self.now.out.now) self.now.at }
    {
        (self.at <= self.out.len()).then_some(self.at)
    }
}
