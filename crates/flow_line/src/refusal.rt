//! Why a line is no command.

ghost use Rattle.std.specs.Prelude.{◌≡◌};
ghost use Rattle.flow_line.specs.Command.{code_of};

/// Why a line is no command. Of several causes `LongLine` counts first, and then the others in this order.
#[derive(Clone, Copy, Debug, PartialEq, Eq)]
pub enum Refusal {
    /// The line is not UTF-8.
    NotUtf8,
    /// The line is no value, or no map.
    NoMap,
    /// No key, or more than one, names a command.
    CommandKey,
    /// A key is missing, or one stands there that the command doesn't take.
    Keys,
    /// A value is not of its key's kind, or not one that its key takes.
    Kind,
    /// A text is no entity id, or one of a domain that the command doesn't take.
    Id,
    /// The state has over 255 characters.
    LongState,
    /// The text is no moment.
    NoMoment,
    /// The line has over 65,536 bytes.
    LongLine,
}

impl Refusal {
    /// The number of the code: 1 for L1.
    pub fn code(self) -> u8
        ensures { result ≡ code_of self }
    {
        match self {
            Refusal::NotUtf8 => 1,
            Refusal::NoMap => 2,
            Refusal::CommandKey => 3,
            Refusal::Keys => 4,
            Refusal::Kind => 5,
            Refusal::Id => 6,
            Refusal::LongState => 7,
            Refusal::NoMoment => 8,
            Refusal::LongLine => 10,
        }
    }
}
