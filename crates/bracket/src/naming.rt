// The kind that a text names, before it is read as a file of that kind.
ghost use Rattle.std.specs.Prelude.{◌≡◌, None};
ghost use Rattle.bracket.specs.Kinds.{kind_word, kind_reader, kind_named, Named, Unread};
ghost use Rattle.bracket.specs.Lexing.{Reads, worth_of};

use crate::fault_in_text::FaultInText;
use crate::kind_name::KindName;
use crate::lexer::Lexer;
use mojette::Reason;

/// The kind that has this name.
fn kind_with(name: &[u8]) -> Result<KindName, Reason>
    ensures { worth_of result ≡ kind_word name.now }
{
    match name {
        b"sum" => Ok(KindName::Sum),
        b"xor" => Ok(KindName::Xor),
        b"pair" => Ok(KindName::Pair),
        _ => Err(Reason::Token),
    }
}

impl<'a> Lexer<'a> {
    /// The start of the first line of a file, up to the kind's name.
    fn kind(&mut self) -> Result<KindName, FaultInText<'a>>
        ensures { Reads kind_reader self.old result self.new }
    {
        self.open()?;
        self.word(b"tile")?;
        self.space()?;
        self.accept(kind_with)
    }
}

/// Which kind a text names. A file of a kind names it, and where none is named the readers of all three give the same fault.
pub fn kind_of(text: &[u8]) -> Option<KindName>
    ensures named { result ≡ kind_named text.now }
    ensures files { Named text.now result }
    ensures none { result ≡ None → Unread text.now }
{
    Lexer::new(text).kind().ok()
}
