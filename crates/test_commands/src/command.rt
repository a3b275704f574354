// Which command a line has.

#[derive(Clone, Copy)]
pub enum Command {
    Lend,
    Text(Text),
    Write(Write),
    Ask(Ask),
    Look(Look),
    Set(Set),
    Change(Change),
    Show(Show),
}

// Text, printed.
#[derive(Clone, Copy)]
pub enum Text {
    Case,
    Line,
    Expect,
}

// The calls that write.
#[derive(Clone, Copy)]
pub enum Write {
    Create,
    Delete,
    Truncate,
    Append,
    Mark,
}

// The questions.
#[derive(Clone, Copy)]
pub enum Ask {
    Positions,
    First,
    Ranges,
    Largest,
    FirstBlock,
    Blocks,
    Queues,
}

// Replay, reads and a copy.
#[derive(Clone, Copy)]
pub enum Look {
    Replay,
    Reopen,
    Reads,
    Copy,
}

// What a case starts from.
#[derive(Clone, Copy)]
pub enum Set {
    Start,
    Stain,
    Move,
    Keep,
    Soil,
    Block,
    Queues,
}

// The log changed.
#[derive(Clone, Copy)]
pub enum Change {
    Xor,
    Cut,
    Put,
    Fill,
}

// What a case left.
#[derive(Clone, Copy)]
pub enum Show {
    Place,
    Held,
    Scratch,
    Log,
}

// A word that is no command.
#[derive(Clone, Copy)]
pub struct Unknown;

impl TryFrom<&[u8]> for Command {
    type Error = Unknown;

    fn try_from(word: &[u8]) -> Result<Command, Unknown> {
        Ok(match word {
            b"lend" => Command::Lend,
            b"case" => Command::Text(Text::Case),
            b"line" => Command::Text(Text::Line),
            b"expect" => Command::Text(Text::Expect),
            b"create" => Command::Write(Write::Create),
            b"delete" => Command::Write(Write::Delete),
            b"truncate" => Command::Write(Write::Truncate),
            b"append" => Command::Write(Write::Append),
            b"mark" => Command::Write(Write::Mark),
            b"positions" => Command::Ask(Ask::Positions),
            b"first" => Command::Ask(Ask::First),
            b"ranges" => Command::Ask(Ask::Ranges),
            b"largest" => Command::Ask(Ask::Largest),
            b"first_block" => Command::Ask(Ask::FirstBlock),
            b"blocks" => Command::Ask(Ask::Blocks),
            b"queues" => Command::Ask(Ask::Queues),
            b"replay" => Command::Look(Look::Replay),
            b"reopen" => Command::Look(Look::Reopen),
            b"reads" => Command::Look(Look::Reads),
            b"copy" => Command::Look(Look::Copy),
            b"start" => Command::Set(Set::Start),
            b"stain" => Command::Set(Set::Stain),
            b"move" => Command::Set(Set::Move),
            b"keep" => Command::Set(Set::Keep),
            b"soil" => Command::Set(Set::Soil),
            b"block" => Command::Set(Set::Block),
            b"set" => Command::Set(Set::Queues),
            b"xor" => Command::Change(Change::Xor),
            b"cut" => Command::Change(Change::Cut),
            b"put" => Command::Change(Change::Put),
            b"fill" => Command::Change(Change::Fill),
            b"place" => Command::Show(Show::Place),
            b"held" => Command::Show(Show::Held),
            b"scratch" => Command::Show(Show::Scratch),
            b"log" => Command::Show(Show::Log),
            _ => return Err(Unknown),
        })
    }
}
