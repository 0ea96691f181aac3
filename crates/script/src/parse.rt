// Lines of text to commands.
ghost use Rattle.std.specs.Prelude.{◌≡◌, IfOk};
ghost use Rattle.assembly.specs.Intents.{Intended};
ghost use Rattle.assembly.specs.Names.{number};

use crate::command::{Command, Work};
use crate::error::{Error, Expected};
use crate::words::Words;
use assembly::call::Call;
use assembly::fields::blank;
use assembly::mnemonic::{Mnemonic, Sort};
use bench::command::FootSpec;
use codes::bounds::Code;
use itertools::Itertools;
use lir::bounds::Handle;
use raw_calls::fields::Fields;
use std::alloc::{AllocError, Global};

// A line without its comment, its words joined by one blank; empty where it has no word.
pub fn action(heap: Global, line: &str) -> Result<String, AllocError> {
    let text = line.split_once('#').map_or(line, |(before, _)| before);
    text.split_whitespace().join(heap, " ")
}

fn foot(words: &mut Words) -> Result<FootSpec, Error> {
    match words.word(Expected::Foot)? {
        "buffer" => Ok(FootSpec::Buffer(words.read(Expected::Places)?)),
        "evaluator" => Ok(FootSpec::Evaluator),
        _ => Err(Error::Unread(Expected::Foot)),
    }
}

// The operands of an instruction by name, in the order in which they are written, but for a guard's lives.
fn operands(name: Mnemonic, words: &mut Words) -> Result<Fields<Handle>, Error>
    ensures { IfOk result (λ f. f.op ≡ number name) }
{
    let fields = blank(name);
    match name {
        Mnemonic::Imm => Ok(Fields {
            code: words.read(Expected::Code)?,
            ..fields
        }),
        Mnemonic::Binary(_) | Mnemonic::Stx => Ok(Fields {
            a: words.read(Expected::Handle)?,
            b: words.read(Expected::Handle)?,
            ..fields
        }),
        Mnemonic::Ld => Ok(Fields {
            cell: words.read(Expected::CellNumber)?,
            ..fields
        }),
        Mnemonic::Ldx => Ok(Fields {
            a: words.read(Expected::Handle)?,
            ..fields
        }),
        Mnemonic::St => Ok(Fields {
            a: words.read(Expected::Handle)?,
            cell: words.read(Expected::CellNumber)?,
            ..fields
        }),
        Mnemonic::Xt | Mnemonic::Xf => Ok(Fields {
            a: words.read(Expected::Handle)?,
            exit: words.read(Expected::Exit)?,
            ..fields
        }),
        Mnemonic::Xge => Ok(Fields {
            a: words.read(Expected::Handle)?,
            code: words.read(Expected::Code)?,
            exit: words.read(Expected::Exit)?,
            ..fields
        }),
    }
}

// Each sort of call has a form of its own, so it is a match.
fn by_name(heap: Global, name: Mnemonic, words: &mut Words) -> Result<Call, Error>
    ensures { IfOk result (λ call. Intended name call) }
{
    let fields = operands(name, words)?;
    match name.sort() {
        Sort::Value => Ok(Call::Value(fields)),
        Sort::Store => Ok(Call::Store(fields)),
        Sort::Guard => Ok(Call::Guard(fields, words.handles(heap)?)),
    }
}

// The raw forms say every field that a call of their sort can use, in the order in which they are written here.
fn raw_value(words: &mut Words) -> Result<Call, Error> {
    Ok(Call::Value(Fields {
        op: words.read(Expected::Op)?,
        a: words.read(Expected::Handle)?,
        b: words.read(Expected::Handle)?,
        cell: words.read(Expected::CellNumber)?,
        code: words.read(Expected::Code)?,
        exit: 0,
    }))
}

fn raw_store(words: &mut Words) -> Result<Call, Error> {
    Ok(Call::Store(Fields {
        op: words.read(Expected::Op)?,
        a: words.read(Expected::Handle)?,
        cell: words.read(Expected::CellNumber)?,
        b: words.read(Expected::Handle)?,
        code: Code::new(0),
        exit: 0,
    }))
}

fn raw_guard(heap: Global, words: &mut Words) -> Result<Call, Error> {
    let fields = Fields {
        op: words.read(Expected::Op)?,
        a: words.read(Expected::Handle)?,
        code: words.read(Expected::Code)?,
        exit: words.read(Expected::Exit)?,
        b: Handle::nth(0),
        cell: 0,
    };
    Ok(Call::Guard(fields, words.handles(heap)?))
}

fn call(heap: Global, word: &str, words: &mut Words) -> Result<Call, Error> {
    match word {
        "value" => raw_value(words),
        "store" => raw_store(words),
        "guard" => raw_guard(heap, words),
        "end" => Ok(Call::End),
        _ => {
            let name = word
                .parse::<Mnemonic>()
                .map_err(|_| Error::Unread(Expected::Action))?;
            by_name(heap, name, words)
        }
    }
}

fn work(heap: Global, word: &str, words: &mut Words) -> Result<Work, Error> {
    match word {
        "cell" => Ok(Work::Cell(words.read(Expected::Cell)?, words.read(Expected::Code)?)),
        "foot" => Ok(Work::Foot(foot(words)?)),
        "run" => Ok(Work::Run),
        "ask" => Ok(Work::Ask),
        _ => Ok(Work::Call(call(heap, word, words)?)),
    }
}

// The command of an action's text.
pub fn command(heap: Global, text: &str) -> Result<Command, Error> {
    let mut words = Words::new(text);
    let command = match words.word(Expected::Action)? {
        "kind" => Command::Kind(words.read(Expected::Kind)?),
        word => Command::Work(work(heap, word, &mut words)?),
    };
    words.done()?;
    Ok(command)
}
