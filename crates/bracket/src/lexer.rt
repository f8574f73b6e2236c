// Tokens of a text. A file of its own, so that `specs/` can name the types.
ghost use Rattle.std.specs.Prelude.{◌≤◌, length};

/// A token: a bracket, a space, a line end, the end of the text, or a word: a part of the text, with the place of
/// its first byte.
#[derive(Clone, Copy)]
pub(crate) enum Token<'a> {
    Open,
    Close,
    Space,
    Newline,
    End,
    Word { text: &'a [u8], byte: usize },
}

/// A text that is read up to a byte. The whole text stays beside it, since a fault tells the byte.
#[derive(Drop)]
pub(crate) struct Lexer<'a> {
    pub(crate) text: &'a [u8],
    pub(crate) at: usize,
    ghost inside: { at ≤ length text.now },
}
