//! What a run serves: what the words of the command line ask for, as far as it is built.

ghost use Rattle.std.specs.Prelude.{◌≡◌, IfOk, IfErr};
ghost use Rattle.trace_replay.specs.Asked.{served_of, IsServable};
ghost use Rattle.trace_replay.specs.Headline.{IsWordRefusal};

use crate::exit::Exit;
use chunk_tags::Mode;
use command_words::{Asked, read_words};

/// What the words ask for, the program's name in front, or how they are refused. No memory is asked for.
pub(crate) fn served(words: &[String]) -> Result<Asked, Exit>
    ensures exact { result ≡ served_of words.now }
    ensures servable { IfOk result IsServable }
    ensures kind { IfErr result IsWordRefusal }
{
    let Some(asked) = read_words(words) else {
        return Err(Exit::Usage);
    };
    if asked.mode == Mode::Threads {
        return Err(Exit::NotBuilt { line: 0 });
    }
    Ok(asked)
}
