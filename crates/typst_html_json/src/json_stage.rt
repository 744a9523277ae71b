//! What may come next in a JSON text (RFC 8259).

/// A bracket that is open.
#[derive(Clone, Copy)]
pub(crate) enum Bracket {
    Array,
    Object,
}

/// A part of a string, after what it names.
#[derive(Clone, Copy)]
pub(crate) enum TextPart {
    Plain,
    /// Behind a backslash.
    Escape,
    /// Behind `\u`.
    Unit,
    /// Behind `\ud`, which may begin a surrogate.
    UnitD,
    /// Three hexadecimal digits are left.
    ThreeLeft,
    TwoLeft,
    OneLeft,
    /// Two hexadecimal digits of a high surrogate are left.
    HighTwoLeft,
    HighOneLeft,
    /// Behind a high surrogate.
    LowEscape,
    /// Behind the backslash of a low surrogate.
    LowU,
    LowUnit,
    LowUnitD,
}

/// A part of a number, after what it names.
#[derive(Clone, Copy)]
pub(crate) enum NumberPart {
    Minus,
    /// The digit 0 alone.
    Zero,
    /// Digits before a point.
    Whole,
    Point,
    /// Digits after a point.
    Fraction,
    Exponent,
    /// The sign of an exponent.
    Sign,
    /// Digits of an exponent.
    Power,
}

/// What is left of `true`, `false` or `null`.
#[derive(Clone, Copy)]
pub(crate) enum WordPart {
    Rue,
    Ue,
    E,
    Alse,
    Lse,
    Se,
    Ull,
    Ll,
    L,
}

/// What may come next in a JSON text, beside white space.
#[derive(Clone, Copy)]
pub(crate) enum Stage {
    Value,
    /// A value, or the end of an array.
    FirstItem,
    /// A key, or the end of an object.
    FirstKey,
    Key,
    Colon,
    /// What follows a value.
    Behind,
    /// More of a string, which is a key or not.
    Text(bool, TextPart),
    Number(NumberPart),
    Word(WordPart),
}

/// What a byte does.
#[derive(Clone, Copy)]
pub(crate) enum Move {
    GoOn(Stage),
    Open(Bracket),
    /// Closes the innermost bracket.
    Close,
}
