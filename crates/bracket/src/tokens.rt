// Taking tokens off a text, each expected one or a fault.
ghost use Rattle.std.specs.Prelude.{◌≡◌, ◌≤◌, [], ◌∷◌, length, not, take_while, codes as text};
ghost use Rattle.std.specs.Fn.{FnOnceReturnsAt};
ghost use Rattle.samples.specs.Names.{IsWord, mark};
ghost use Rattle.samples.specs.Reading.{read_code};
ghost use Rattle.format.specs.Format.{code_word};
ghost use Rattle.format.specs.Readers.{accept, expect};
ghost use Rattle.format.specs.Tokens.{after};
ghost use Rattle.bracket.specs.Lexing.{left, place, mark_of, token_len, IsToken, Reads, Takes, TakesWord};

use crate::fault_in_text::FaultInText;
use crate::lexer::{Lexer, Token};
use crate::words::exactly;
use mojette::{Reason, TextFault};
use samples::Coded;
use samples::codes::read_code;

/// Whether a byte is a token by itself, so that no word goes on there.
fn is_mark(b: u8) -> bool
    ensures { result ≡ mark b }
{
    matches!(b, b'(' | b')' | b' ' | b'\n')
}

/// How many bytes the text has before the first mark.
fn run_len(text: &[u8]) -> usize
    ensures within { result ≤ length text.now }
    ensures value { result ≡ length (take_while (λ b. not (mark b)) text.now) }
{
    text.iter().take_while(|b| !is_mark(**b)).count()
}

impl<'a> Token<'a> {
    /// The token that a byte is by itself.
    fn mark(b: u8) -> Option<Token<'a>>
        ensures { result ≡ mark_of b }
    {
        match b {
            b'(' => Some(Token::Open),
            b')' => Some(Token::Close),
            b' ' => Some(Token::Space),
            b'\n' => Some(Token::Newline),
            _ => None,
        }
    }

    /// The first token of what is left of a text from a byte on.
    fn first(rest: &'a [u8], byte: usize) -> Token<'a>
        ensures { IsToken byte rest.now result }
    {
        let Some(first) = rest.first() else {
            return Token::End;
        };
        if let Some(mark) = Token::mark(*first) {
            return mark;
        }
        Token::Word {
            text: &rest[..run_len(rest)],
            byte,
        }
    }

    /// How many bytes the token has.
    fn len(&self) -> usize
        ensures { result ≡ token_len self.now }
    {
        match self {
            Token::End => 0,
            Token::Open | Token::Close | Token::Space | Token::Newline => 1,
            Token::Word { text, .. } => text.len(),
        }
    }
}

impl<'a> Lexer<'a> {
    pub(crate) fn new(text: &'a [u8]) -> Lexer<'a>
        ensures { (result.text.now ≡ text.now) × (result.at ≡ 0) }
    {
        Lexer { text, at: 0 }
    }

    /// The place of the next token.
    fn byte(&self) -> usize
        ensures { result ≡ place self.now }
    {
        self.at
    }

    /// The fault of the token at a byte, which is wrong for this reason.
    fn fault(&self, byte: usize, reason: Reason) -> FaultInText<'a>
        ensures text { result.text.now ≡ self.now.text.now }
        ensures fault { result.fault ≡ record { byte = byte; reason = reason } }
    {
        FaultInText {
            text: self.text,
            fault: TextFault { byte, reason },
        }
    }

    /// The next token, which is passed. Inlined, so that each method below asks for its own token alone.
    #[inline(always)]
    fn next(&mut self) -> Token<'a>
        ensures is { IsToken (place self.old) (left self.old) result }
        ensures rest { left self.new ≡ after (left self.old) }
        ensures same { self.new.text.now ≡ self.old.text.now }
    {
        let text = self.text;
        let token = Token::first(&text[self.at..], self.byte());
        self.at += token.len();
        token
    }

    // Below each token that a file may want is let through by a `let .. else` of its own. The else branch makes the
    // fault of the token that stands there in its place.

    /// The bracket that opens a form.
    pub(crate) fn open(&mut self) -> Result<(), FaultInText<'a>>
        ensures { Reads (λ n. expect n (text "(")) self.old result self.new }
    {
        let byte = self.byte();
        let Token::Open = self.next() else {
            return Err(self.fault(byte, Reason::Token));
        };
        Ok(())
    }

    /// The bracket that closes a form.
    pub(crate) fn close(&mut self) -> Result<(), FaultInText<'a>>
        ensures { Reads (λ n. expect n (text ")")) self.old result self.new }
    {
        let byte = self.byte();
        let Token::Close = self.next() else {
            return Err(self.fault(byte, Reason::Token));
        };
        Ok(())
    }

    /// One space.
    #[inline(always)]
    pub(crate) fn space(&mut self) -> Result<(), FaultInText<'a>>
        ensures { Reads (λ n. expect n (text " ")) self.old result self.new }
    {
        let byte = self.byte();
        let Token::Space = self.next() else {
            return Err(self.fault(byte, Reason::Token));
        };
        Ok(())
    }

    /// The end of a line.
    pub(crate) fn newline(&mut self) -> Result<(), FaultInText<'a>>
        ensures { Reads (λ n. expect n (10 ∷ [])) self.old result self.new }
    {
        let byte = self.byte();
        let Token::Newline = self.next() else {
            return Err(self.fault(byte, Reason::Token));
        };
        Ok(())
    }

    /// The end of the text.
    pub(crate) fn end(&mut self) -> Result<(), FaultInText<'a>>
        ensures { Reads (λ n. expect n ([])) self.old result self.new }
    {
        let byte = self.byte();
        let Token::End = self.next() else {
            return Err(self.fault(byte, Reason::Token));
        };
        Ok(())
    }

    /// The next word, with the place of its first byte.
    fn take_word(&mut self) -> Result<(&'a [u8], usize), FaultInText<'a>>
        ensures { TakesWord self.old result self.new }
    {
        let byte = self.byte();
        let Token::Word { text, byte } = self.next() else {
            return Err(self.fault(byte, Reason::Token));
        };
        Ok((text, byte))
    }

    /// The word `want`.
    pub(crate) fn word(&mut self, want: &[u8]) -> Result<(), FaultInText<'a>>
        requires { IsWord want.now }
        ensures { Reads (λ n. expect n want.now) self.old result self.new }
    {
        let (word, byte) = self.take_word()?;
        let Ok(()) = exactly(word, want) else {
            return Err(self.fault(byte, Reason::Token));
        };
        Ok(())
    }

    /// The code of a sample: a word that is read as one.
    pub(crate) fn code<K: Coded>(&mut self) -> Result<K, FaultInText<'a>>
        ensures { Reads (λ n. accept n (code_word K.Coded.own)) self.old result self.new }
    {
        let (word, byte) = self.take_word()?;
        let Some(sample) = read_code::<K>(word) else {
            return Err(self.fault(byte, Reason::Token));
        };
        Ok(sample)
    }

    /// A word as `read` reads it, which says why it is wrong.
    pub(crate) fn accept<T, F: FnOnce(&[u8]) -> Result<T, Reason>>(
        &mut self,
        read: F,
    ) -> Result<T, FaultInText<'a>>
        requires { F.IsAlwaysCallable read }
        ensures { Takes (FnOnceReturnsAt F.FnOnce read) self.old result self.new }
    {
        let (word, byte) = self.take_word()?;
        match read(word) {
            Ok(value) => Ok(value),
            Err(reason) => Err(self.fault(byte, reason)),
        }
    }
}
