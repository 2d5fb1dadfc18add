// The marks, and the mark with which a text begins.
ghost use Rattle.std.specs.Prelude.{◌≡◌, ◌≤◌, length, IfSome, IfNone};
ghost use Rattle.c_lex.specs.declared.marks.Mark.{Mark};
ghost use Rattle.c_lex.specs.Marks.{mark_text, BeginsWith};

/// A mark: an operator or a separator of C (ISO/IEC 9899:2018, 6.4.6), including those that the subset doesn't use.
#[derive(Clone, Copy, PartialEq, Eq)]
pub enum Mark {
    /// `<<=`
    ShiftLeftAssign,
    /// `>>=`
    ShiftRightAssign,
    /// `==`
    Equal,
    /// `!=`
    NotEqual,
    /// `<=`
    LessEqual,
    /// `>=`
    GreaterEqual,
    /// `<<`
    ShiftLeft,
    /// `>>`
    ShiftRight,
    /// `&&`
    AndAnd,
    /// `||`
    OrOr,
    /// `++`
    PlusPlus,
    /// `--`
    MinusMinus,
    /// `+=`
    PlusAssign,
    /// `-=`
    MinusAssign,
    /// `*=`
    StarAssign,
    /// `/=`
    SlashAssign,
    /// `%=`
    PercentAssign,
    /// `&=`
    AmpersandAssign,
    /// `|=`
    BarAssign,
    /// `^=`
    CaretAssign,
    /// `->`
    Arrow,
    /// `(`
    LeftParenthesis,
    /// `)`
    RightParenthesis,
    /// `[`
    LeftBracket,
    /// `]`
    RightBracket,
    /// `{`
    LeftBrace,
    /// `}`
    RightBrace,
    /// `,`
    Comma,
    /// `;`
    Semicolon,
    /// `?`
    Question,
    /// `:`
    Colon,
    /// `=`
    Assign,
    /// `<`
    Less,
    /// `>`
    Greater,
    /// `+`
    Plus,
    /// `-`
    Minus,
    /// `*`
    Star,
    /// `/`
    Slash,
    /// `%`
    Percent,
    /// `&`
    Ampersand,
    /// `|`
    Bar,
    /// `^`
    Caret,
    /// `~`
    Tilde,
    /// `!`
    Exclamation,
}

impl Mark {
    /// Returns the mark's spelling.
    pub fn text(self) -> &'static str
        ensures { result.now ≡ mark_text self }
    {
        match self {
            Mark::ShiftLeftAssign => "<<=",
            Mark::ShiftRightAssign => ">>=",
            Mark::Equal => "==",
            Mark::NotEqual => "!=",
            Mark::LessEqual => "<=",
            Mark::GreaterEqual => ">=",
            Mark::ShiftLeft => "<<",
            Mark::ShiftRight => ">>",
            Mark::AndAnd => "&&",
            Mark::OrOr => "||",
            Mark::PlusPlus => "++",
            Mark::MinusMinus => "--",
            Mark::PlusAssign => "+=",
            Mark::MinusAssign => "-=",
            Mark::StarAssign => "*=",
            Mark::SlashAssign => "/=",
            Mark::PercentAssign => "%=",
            Mark::AmpersandAssign => "&=",
            Mark::BarAssign => "|=",
            Mark::CaretAssign => "^=",
            Mark::Arrow => "->",
            Mark::LeftParenthesis => "(",
            Mark::RightParenthesis => ")",
            Mark::LeftBracket => "[",
            Mark::RightBracket => "]",
            Mark::LeftBrace => "{",
            Mark::RightBrace => "}",
            Mark::Comma => ",",
            Mark::Semicolon => ";",
            Mark::Question => "?",
            Mark::Colon => ":",
            Mark::Assign => "=",
            Mark::Less => "<",
            Mark::Greater => ">",
            Mark::Plus => "+",
            Mark::Minus => "-",
            Mark::Star => "*",
            Mark::Slash => "/",
            Mark::Percent => "%",
            Mark::Ampersand => "&",
            Mark::Bar => "|",
            Mark::Caret => "^",
            Mark::Tilde => "~",
            Mark::Exclamation => "!",
        }
    }
}

// Longer marks come first, so the first that fits is the longest.
const MARKS: [Mark; 44] = [
    Mark::ShiftLeftAssign,
    Mark::ShiftRightAssign,
    Mark::Equal,
    Mark::NotEqual,
    Mark::LessEqual,
    Mark::GreaterEqual,
    Mark::ShiftLeft,
    Mark::ShiftRight,
    Mark::AndAnd,
    Mark::OrOr,
    Mark::PlusPlus,
    Mark::MinusMinus,
    Mark::PlusAssign,
    Mark::MinusAssign,
    Mark::StarAssign,
    Mark::SlashAssign,
    Mark::PercentAssign,
    Mark::AmpersandAssign,
    Mark::BarAssign,
    Mark::CaretAssign,
    Mark::Arrow,
    Mark::LeftParenthesis,
    Mark::RightParenthesis,
    Mark::LeftBracket,
    Mark::RightBracket,
    Mark::LeftBrace,
    Mark::RightBrace,
    Mark::Comma,
    Mark::Semicolon,
    Mark::Question,
    Mark::Colon,
    Mark::Assign,
    Mark::Less,
    Mark::Greater,
    Mark::Plus,
    Mark::Minus,
    Mark::Star,
    Mark::Slash,
    Mark::Percent,
    Mark::Ampersand,
    Mark::Bar,
    Mark::Caret,
    Mark::Tilde,
    Mark::Exclamation,
];

/// Returns the longest mark with which the text begins, or `None` if it begins with none.
pub(crate) fn mark_at(text: &[u8]) -> Option<Mark>
    ensures found { IfSome result (λ mark. BeginsWith text.now (mark_text mark)) }
    ensures longest { IfSome result
        (λ mark. (other : Mark) → BeginsWith text.now (mark_text other) → length (mark_text other) ≤ length (mark_text mark)) }
    ensures none { IfNone result ((mark : Mark) → ¬ BeginsWith text.now (mark_text mark)) }
{
    for mark in &MARKS {
        if text.starts_with(mark.text().as_bytes()) {
            return Some(*mark);
        }
    }
    None
}
