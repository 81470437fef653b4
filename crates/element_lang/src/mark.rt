//! The words and symbols that the language fixes.
ghost use Rattle.std.specs.Prelude.{◌≡◌, ◌≤◌, length, nat_eq, IfSome};
ghost use Rattle.std.specs.List.{find, starts_with};
ghost use Rattle.std.specs.Str.{bytes_eq};
ghost use Rattle.element_lang.specs.Mark as marks;

/// A keyword or a symbol of a source.
#[derive(Clone, Copy, PartialEq, Eq)]
pub enum Mark {
    Table,
    Map,
    Vector,
    Int,
    Capacity,
    Length,
    Process,
    Let,
    Look,
    Put,
    Del,
    If,
    Else,
    Repeat,
    Send,
    Drop,
    Byte,
    Cast,
    Select,
    Adjust,
    Arrow,
    Equal,
    NotEqual,
    AtMost,
    ShiftLeft,
    ShiftRight,
    LeftParen,
    RightParen,
    LeftBracket,
    RightBracket,
    LeftBrace,
    RightBrace,
    Comma,
    Semicolon,
    Colon,
    Assign,
    Plus,
    Minus,
    Star,
    Slash,
    Percent,
    Ampersand,
    Bar,
    Caret,
    Tilde,
    Less,
}

// The keywords that begin with this byte. No name of an object or a local is a keyword.
#[tactic(auto, unfolding(crate::specs::Mark::keywords_from))]
fn keywords_from(first: u8) -> &'static [Mark]
    ensures { result.now ≡ marks.keywords_from first }
{
    match first {
        b'a' => &[Mark::Adjust],
        b'b' => &[Mark::Byte],
        b'c' => &[Mark::Capacity, Mark::Cast],
        b'd' => &[Mark::Del, Mark::Drop],
        b'e' => &[Mark::Else],
        b'i' => &[Mark::Int, Mark::If],
        b'l' => &[Mark::Length, Mark::Let, Mark::Look],
        b'm' => &[Mark::Map],
        b'p' => &[Mark::Process, Mark::Put],
        b'r' => &[Mark::Repeat],
        b's' => &[Mark::Send, Mark::Select],
        b't' => &[Mark::Table],
        b'v' => &[Mark::Vector],
        _ => &[],
    }
}

// The symbols that begin with this byte. The longer ones stand before the shorter ones, so that the first that fits is
// the longest.
#[tactic(auto, unfolding(crate::specs::Mark::symbols_from))]
fn symbols_from(first: u8) -> &'static [Mark]
    ensures { result.now ≡ marks.symbols_from first }
{
    match first {
        b'-' => &[Mark::Arrow, Mark::Minus],
        b'=' => &[Mark::Equal, Mark::Assign],
        b'!' => &[Mark::NotEqual],
        b'<' => &[Mark::AtMost, Mark::ShiftLeft, Mark::Less],
        b'>' => &[Mark::ShiftRight],
        b'(' => &[Mark::LeftParen],
        b')' => &[Mark::RightParen],
        b'[' => &[Mark::LeftBracket],
        b']' => &[Mark::RightBracket],
        b'{' => &[Mark::LeftBrace],
        b'}' => &[Mark::RightBrace],
        b',' => &[Mark::Comma],
        b';' => &[Mark::Semicolon],
        b':' => &[Mark::Colon],
        b'+' => &[Mark::Plus],
        b'*' => &[Mark::Star],
        b'/' => &[Mark::Slash],
        b'%' => &[Mark::Percent],
        b'&' => &[Mark::Ampersand],
        b'|' => &[Mark::Bar],
        b'^' => &[Mark::Caret],
        b'~' => &[Mark::Tilde],
        _ => &[],
    }
}

// The first mark of a list that is written so.
fn first_written(list: &[Mark], word: &[u8]) -> Option<Mark>
    ensures { result ≡ find (λ m. bytes_eq (marks.spelling m) word.now) list.now }
{
    for mark in list {
        if mark.spelling().as_bytes() == word {
            return Some(*mark);
        }
    }
    None
}

// The first mark of a list with whose spelling the bytes begin.
fn first_in_front(list: &[Mark], bytes: &[u8]) -> Option<Mark>
    ensures found { result ≡ find (λ m. starts_with nat_eq bytes.now (marks.spelling m)) list.now }
    ensures within { IfSome result (λ mark. length (marks.spelling mark) ≤ length bytes.now) }
{
    for mark in list {
        if bytes.starts_with(mark.spelling().as_bytes()) {
            return Some(*mark);
        }
    }
    None
}

impl Mark {
    /// The keyword that is written so.
    pub fn keyword(word: &[u8]) -> Option<Mark>
        ensures { result ≡ marks.keyword word.now }
    {
        let Some(first) = word.first() else {
            return None;
        };
        first_written(keywords_from(*first), word)
    }

    /// The longest symbol with which the bytes begin.
    pub fn symbol_in_front(bytes: &[u8]) -> Option<Mark>
        ensures found { result ≡ marks.symbol_in_front bytes.now }
        ensures within { IfSome result (λ mark. length (marks.spelling mark) ≤ length bytes.now) }
    {
        let Some(first) = bytes.first() else {
            return None;
        };
        first_in_front(symbols_from(*first), bytes)
    }

    /// How it is written.
    pub fn spelling(self) -> &'static str
        ensures { result.now ≡ marks.spelling self }
    {
        match self {
            Mark::Table => "table",
            Mark::Map => "map",
            Mark::Vector => "vector",
            Mark::Int => "int",
            Mark::Capacity => "capacity",
            Mark::Length => "length",
            Mark::Process => "process",
            Mark::Let => "let",
            Mark::Look => "look",
            Mark::Put => "put",
            Mark::Del => "del",
            Mark::If => "if",
            Mark::Else => "else",
            Mark::Repeat => "repeat",
            Mark::Send => "send",
            Mark::Drop => "drop",
            Mark::Byte => "byte",
            Mark::Cast => "cast",
            Mark::Select => "select",
            Mark::Adjust => "adjust",
            Mark::Arrow => "->",
            Mark::Equal => "==",
            Mark::NotEqual => "!=",
            Mark::AtMost => "<=",
            Mark::ShiftLeft => "<<",
            Mark::ShiftRight => ">>",
            Mark::LeftParen => "(",
            Mark::RightParen => ")",
            Mark::LeftBracket => "[",
            Mark::RightBracket => "]",
            Mark::LeftBrace => "{",
            Mark::RightBrace => "}",
            Mark::Comma => ",",
            Mark::Semicolon => ";",
            Mark::Colon => ":",
            Mark::Assign => "=",
            Mark::Plus => "+",
            Mark::Minus => "-",
            Mark::Star => "*",
            Mark::Slash => "/",
            Mark::Percent => "%",
            Mark::Ampersand => "&",
            Mark::Bar => "|",
            Mark::Caret => "^",
            Mark::Tilde => "~",
            Mark::Less => "<",
        }
    }
}
