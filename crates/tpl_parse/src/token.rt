//! The words and signs of the grammar. The longest that stands at a place is the one that is read there.

ghost use Rattle.std.specs.Prelude.{◌≡◌, ◌≤◌, length, true};
ghost use Rattle.tpl_parse.specs.Token.{begins_name, common, in_name, is_longer, is_reserved, reach, stands, text_of};

/// A word or a sign of the grammar.
#[derive(Clone, Copy, Debug, PartialEq, Eq)]
pub enum Token {
    Set,
    If,
    Elif,
    Else,
    Endif,
    Or,
    And,
    Not,
    In,
    Is,
    None,
    Defined,
    True,
    False,
    /// `None`, `True` and `False` are spellings too.
    PrintedNone,
    PrintedTrue,
    PrintedFalse,
    Equal,
    Unequal,
    Less,
    AtMost,
    More,
    AtLeast,
    Plus,
    Minus,
    Join,
    Times,
    Over,
    Floor,
    Modulo,
    Bar,
    Dot,
    Comma,
    Assign,
    OpenList,
    CloseList,
    OpenGroup,
    CloseGroup,
    /// The ends of tags. A `-` before an end takes the blanks and breaks behind it away.
    ShowEnd,
    TrimShowEnd,
    TagEnd,
    TrimTagEnd,
}

/// The words, which are no names.
const WORDS: [Token; 17] = [
    Token::Set,
    Token::If,
    Token::Elif,
    Token::Else,
    Token::Endif,
    Token::Or,
    Token::And,
    Token::Not,
    Token::In,
    Token::Is,
    Token::None,
    Token::Defined,
    Token::True,
    Token::False,
    Token::PrintedNone,
    Token::PrintedTrue,
    Token::PrintedFalse,
];

impl Token {
    pub fn text(self) -> &'static [u8]
        ensures { result.now ≡ text_of self }
    {
        match self {
            Token::Set => b"set",
            Token::If => b"if",
            Token::Elif => b"elif",
            Token::Else => b"else",
            Token::Endif => b"endif",
            Token::Or => b"or",
            Token::And => b"and",
            Token::Not => b"not",
            Token::In => b"in",
            Token::Is => b"is",
            Token::None => b"none",
            Token::Defined => b"defined",
            Token::True => b"true",
            Token::False => b"false",
            Token::PrintedNone => b"None",
            Token::PrintedTrue => b"True",
            Token::PrintedFalse => b"False",
            Token::Equal => b"==",
            Token::Unequal => b"!=",
            Token::Less => b"<",
            Token::AtMost => b"<=",
            Token::More => b">",
            Token::AtLeast => b">=",
            Token::Plus => b"+",
            Token::Minus => b"-",
            Token::Join => b"~",
            Token::Times => b"*",
            Token::Over => b"/",
            Token::Floor => b"//",
            Token::Modulo => b"%",
            Token::Bar => b"|",
            Token::Dot => b".",
            Token::Comma => b",",
            Token::Assign => b"=",
            Token::OpenList => b"[",
            Token::CloseList => b"]",
            Token::OpenGroup => b"(",
            Token::CloseGroup => b")",
            Token::ShowEnd => b"}}",
            Token::TrimShowEnd => b"-}}",
            Token::TagEnd => b"%}",
            Token::TrimTagEnd => b"-%}",
        }
    }
}

/// Names begin with a letter or `_`.
pub fn begins_name(b: u8) -> bool
    ensures { result ≡ begins_name b }
{
    b.is_ascii_alphabetic() || b == b'_'
}

/// Names go on with letters, `_` and digits.
pub fn in_name(b: u8) -> bool
    ensures { result ≡ in_name b }
{
    begins_name(b) || b.is_ascii_digit()
}

/// Whether a longer token begins with the token and this byte. No operand begins with `}` or `%`, so a `-` before one of them
/// can only be that of a tag's end.
fn is_longer(token: Token, b: u8) -> bool
    ensures { result ≡ is_longer token b }
{
    match token {
        Token::Minus => b == b'}' || b == b'%',
        Token::Modulo => b == b'}',
        Token::Over => b == b'/',
        Token::Less | Token::More | Token::Assign => b == b'=',
        _ => WORDS.contains(&token) && in_name(b),
    }
}

/// Whether the name is a word of the grammar.
pub fn is_reserved(name: &[u8]) -> bool
    ensures { result ≡ is_reserved name.now }
{
    WORDS.iter().any(|word| word.text() == name)
}

/// Whether the token is the one that is read at the front of the text.
#[tactic(auto, unfolding(crate::specs::Token::stands))]
pub fn stands(token: Token, rest: &[u8]) -> bool
    ensures exact { result ≡ stands token rest.now }
    ensures within { result ≡ true → length (text_of token) ≤ length rest.now }
{
    let long = token.text().len();
    if common(token.text(), rest) < long {
        return false;
    }
    match rest.get(long) {
        Some(b) => !is_longer(token, *b),
        None => true,
    }
}

/// How many bytes the two have in common from the front on.
#[tactic(auto, unfolding(crate::specs::Token::common))]
pub fn common(a: &[u8], b: &[u8]) -> usize
    ensures exact { result ≡ common a.now b.now }
    ensures within { result ≤ length a.now }
    ensures left { result ≤ length b.now }
{
    let mut a = a;
    let mut b = b;
    let mut long = 0;
    'bytes: while let Some(x) = a.first()
        && let Some(y) = b.first()
        && *x == *y
    {
        a = &a[1..];
        b = &b[1..];
        long += 1;
    }
    long
}

/// How far the text goes on as one of the tokens.
pub fn reach(tokens: &[Token], rest: &[u8]) -> usize
    ensures { result ≡ reach tokens.now rest.now }
{
    tokens
        .iter()
        .fold(0, |far, token| far.max(common(token.text(), rest)))
}
