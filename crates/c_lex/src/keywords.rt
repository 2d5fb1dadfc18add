// The keywords of C, and which keyword a word is.
ghost use Rattle.std.specs.Prelude.{◌≡◌, ◌≢◌, IfSome, IfNone};
ghost use Rattle.c_lex.specs.declared.keywords.Keyword.{Keyword};
ghost use Rattle.c_lex.specs.Keywords.{keyword_text};

/// A keyword of C (ISO/IEC 9899:2018, 6.4.1), including those that the subset doesn't use.
#[derive(Clone, Copy, PartialEq, Eq)]
pub enum Keyword {
    /// `auto`
    Auto,
    /// `break`
    Break,
    /// `case`
    Case,
    /// `char`
    Char,
    /// `const`
    Const,
    /// `continue`
    Continue,
    /// `default`
    Default,
    /// `do`
    Do,
    /// `double`
    Double,
    /// `else`
    Else,
    /// `enum`
    Enum,
    /// `extern`
    Extern,
    /// `float`
    Float,
    /// `for`
    For,
    /// `goto`
    Goto,
    /// `if`
    If,
    /// `inline`
    Inline,
    /// `int`
    Int,
    /// `long`
    Long,
    /// `register`
    Register,
    /// `restrict`
    Restrict,
    /// `return`
    Return,
    /// `short`
    Short,
    /// `signed`
    Signed,
    /// `sizeof`
    Sizeof,
    /// `static`
    Static,
    /// `struct`
    Struct,
    /// `switch`
    Switch,
    /// `typedef`
    Typedef,
    /// `union`
    Union,
    /// `unsigned`
    Unsigned,
    /// `void`
    Void,
    /// `volatile`
    Volatile,
    /// `while`
    While,
    /// `_Alignas`
    Alignas,
    /// `_Alignof`
    Alignof,
    /// `_Atomic`
    Atomic,
    /// `_Bool`
    Bool,
    /// `_Complex`
    Complex,
    /// `_Generic`
    Generic,
    /// `_Imaginary`
    Imaginary,
    /// `_Noreturn`
    Noreturn,
    /// `_Static_assert`
    StaticAssert,
    /// `_Thread_local`
    ThreadLocal,
}

impl Keyword {
    /// Returns the keyword's spelling.
    pub fn text(self) -> &'static str
        ensures { result.now ≡ keyword_text self }
    {
        match self {
            Keyword::Auto => "auto",
            Keyword::Break => "break",
            Keyword::Case => "case",
            Keyword::Char => "char",
            Keyword::Const => "const",
            Keyword::Continue => "continue",
            Keyword::Default => "default",
            Keyword::Do => "do",
            Keyword::Double => "double",
            Keyword::Else => "else",
            Keyword::Enum => "enum",
            Keyword::Extern => "extern",
            Keyword::Float => "float",
            Keyword::For => "for",
            Keyword::Goto => "goto",
            Keyword::If => "if",
            Keyword::Inline => "inline",
            Keyword::Int => "int",
            Keyword::Long => "long",
            Keyword::Register => "register",
            Keyword::Restrict => "restrict",
            Keyword::Return => "return",
            Keyword::Short => "short",
            Keyword::Signed => "signed",
            Keyword::Sizeof => "sizeof",
            Keyword::Static => "static",
            Keyword::Struct => "struct",
            Keyword::Switch => "switch",
            Keyword::Typedef => "typedef",
            Keyword::Union => "union",
            Keyword::Unsigned => "unsigned",
            Keyword::Void => "void",
            Keyword::Volatile => "volatile",
            Keyword::While => "while",
            Keyword::Alignas => "_Alignas",
            Keyword::Alignof => "_Alignof",
            Keyword::Atomic => "_Atomic",
            Keyword::Bool => "_Bool",
            Keyword::Complex => "_Complex",
            Keyword::Generic => "_Generic",
            Keyword::Imaginary => "_Imaginary",
            Keyword::Noreturn => "_Noreturn",
            Keyword::StaticAssert => "_Static_assert",
            Keyword::ThreadLocal => "_Thread_local",
        }
    }
}

const KEYWORDS: [Keyword; 44] = [
    Keyword::Auto,
    Keyword::Break,
    Keyword::Case,
    Keyword::Char,
    Keyword::Const,
    Keyword::Continue,
    Keyword::Default,
    Keyword::Do,
    Keyword::Double,
    Keyword::Else,
    Keyword::Enum,
    Keyword::Extern,
    Keyword::Float,
    Keyword::For,
    Keyword::Goto,
    Keyword::If,
    Keyword::Inline,
    Keyword::Int,
    Keyword::Long,
    Keyword::Register,
    Keyword::Restrict,
    Keyword::Return,
    Keyword::Short,
    Keyword::Signed,
    Keyword::Sizeof,
    Keyword::Static,
    Keyword::Struct,
    Keyword::Switch,
    Keyword::Typedef,
    Keyword::Union,
    Keyword::Unsigned,
    Keyword::Void,
    Keyword::Volatile,
    Keyword::While,
    Keyword::Alignas,
    Keyword::Alignof,
    Keyword::Atomic,
    Keyword::Bool,
    Keyword::Complex,
    Keyword::Generic,
    Keyword::Imaginary,
    Keyword::Noreturn,
    Keyword::StaticAssert,
    Keyword::ThreadLocal,
];

/// Returns the keyword that a word is, or `None` if it isn't one.
pub(crate) fn keyword_of(word: &[u8]) -> Option<Keyword>
    ensures found { IfSome result (λ keyword. word.now ≡ keyword_text keyword) }
    ensures none { IfNone result ((keyword : Keyword) → word.now ≢ keyword_text keyword) }
{
    for keyword in &KEYWORDS {
        if keyword.text().as_bytes() == word {
            return Some(*keyword);
        }
    }
    None
}
