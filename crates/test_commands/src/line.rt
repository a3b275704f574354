// A line: its command, and the words and numbers after it.

// The whole line, the command, and what stands after the command and a space.
#[derive(Clone, Copy)]
pub struct Line<'a> {
    pub text: &'a [u8],
    pub command: &'a [u8],
    pub rest: &'a [u8],
}

impl<'a> From<&'a [u8]> for Line<'a> {
    fn from(text: &'a [u8]) -> Line<'a> {
        let (command, rest) = split_once(text, b' ');
        Line {
            text,
            command,
            rest: rest.unwrap_or(&[]),
        }
    }
}

impl<'a> Line<'a> {
    // The word after the command; an empty one where there is none.
    pub fn name(self) -> &'a [u8] {
        split_once(self.rest, b' ').0
    }

    // Which word after the command is such a word, counted from 0: the first of them, among the first 32.
    fn place_of(self, word: &[u8]) -> Option<usize> {
        let mut words = self.rest.split(|b| *b == b' ').take(32);
        words.position(|w| w == word)
    }

    // Whether there is one.
    pub fn has(self, word: &[u8]) -> bool {
        self.place_of(word).is_some()
    }

    // The number after that word, where there is one.
    pub fn number(self, word: &[u8]) -> Option<u64> {
        let place = self.place_of(word)?;
        let digits = self.rest.split(|b| *b == b' ').skip(place).nth(1)?;
        if digits.is_empty() {
            return None;
        }
        Some(decimal(digits))
    }

    // The same where the line has that word: 0 where no number stands behind it.
    pub fn number_of_word(self, word: &[u8]) -> Option<u64> {
        self.has(word).then(|| self.number_or_0(word))
    }

    // The same, or 0.
    pub fn number_or_0(self, word: &[u8]) -> u64 {
        self.number(word).unwrap_or(0)
    }

    // The place that it says, or 0.
    pub fn place(self) -> usize {
        self.number_or_0(b"at") as usize
    }
}

// What stands before the first such byte, and what stands after it, where there is one.
pub fn split_once(text: &[u8], byte: u8) -> (&[u8], Option<&[u8]>) {
    let mut parts = text.splitn(2, |b| *b == byte);
    (parts.next().unwrap_or(&[]), parts.next())
}

// The number that the digits say, 2^64-1 where it is above that. Other bytes are passed over.
pub fn decimal(text: &[u8]) -> u64 {
    text.iter().fold(0u64, |n, byte| match *byte {
        digit @ b'0'..=b'9' => n.saturating_mul(10).saturating_add(u64::from(digit - b'0')),
        _ => n,
    })
}
