//! The script that a command names.

ghost use Rattle.std.specs.Prelude.{◌≡◌, ◌≤◌, ◌⊎◌, Err, Some, length, IsTrue, IfErr, IfOk, IfSome};
ghost use Rattle.aqe_base.specs.declared.status.Status.TheVariants as status;
ghost use Rattle.aqe_values.specs.Bounds.{text_limit};
ghost use Rattle.aqe_store.specs.Files.{content_of};
ghost use Rattle.aqe_store.specs.Told.{WhereTold};
ghost use Rattle.aqe_lexer.specs.TokenList.{IsTokenList};
ghost use Rattle.aqe_built.specs.Built.{is_script_built};
ghost use Rattle.aqe_syntax.specs.Causes.{IsTaken};
ghost use Rattle.aqe_course.specs.Command.{command};
ghost use Rattle.aqe_course.specs.Opening.{IsOpened, IsSource, IsRefusedSource, of_lex};
ghost use Rattle.aqe_run.specs.Steps.{IsExcuse, IsNotRead, IsRunStep, OpensNone, is_step_end};

use aqe_base::{Bytes, LimitKind, Status, SyntaxKind};
use aqe_built::form_not_built;
use aqe_lexer::{LexFault, Tokens, tokens};
use aqe_store::{ReadFail, Store, read_all};
use aqe_syntax::{SyntaxFault, parse};
use aqe_texts::FaultPlace;
use aqe_trees::Script;
use std::alloc::Global;

/// The most bytes that a script may have.
const SCRIPT_LIMIT: u64 = 67108864;

/// The bytes of the script.
fn read_source<S: Store>(
    alloc: Global,
    path: &str,
    store: &mut S,
    place: &mut FaultPlace,
) -> Result<Bytes, Status>
    ensures content { IfOk result (λ bytes. WhereTold (S.files store.old)
        (λ files. content_of files path.now ≡ Some bytes)) }
    ensures bound { IfOk result (λ bytes. length bytes ≤ text_limit) }
    ensures refused { IfErr result (λ end. WhereTold (S.files store.old)
        (λ files. IsNotRead files path.now end ⊎ IsExcuse end)) }
    ensures at_path { result ≡ Err status.ReadFault → IfSome (S.opened store.new) (λ file. file.0 ≡ path.now) }
    ensures named { IfErr result (λ end. IsTrue (is_step_end end)) }
    ensures step { IsRunStep S.files S.faults S.misses store.old store.new result }
{
    match read_all(alloc, store, path, SCRIPT_LIMIT) {
        Ok(bytes) => Ok(bytes),
        Err(ReadFail::Failed) => {
            place.note(path);
            Err(Status::ReadFault)
        }
        Err(ReadFail::Memory) => Err(Status::Memory),
        Err(ReadFail::TooLong) => {
            place.note(path);
            Err(Status::Limit(LimitKind::FileBytes))
        }
        Err(ReadFail::Missing) => {
            place.note(path);
            Err(Status::Missing)
        }
    }
}

/// The status of a source without tokens, whose first fault is noted.
fn lex_status(fault: LexFault, source: &[u8], place: &mut FaultPlace) -> Status
    ensures { result ≡ of_lex fault }
{
    let (kind, at) = match fault {
        LexFault::BadByte { at } => (SyntaxKind::BadByte, at),
        LexFault::OpenString { at } => (SyntaxKind::OpenString, at),
        LexFault::OpenQuote { at } => (SyntaxKind::OpenQuote, at),
        LexFault::BadEscape { at } => (SyntaxKind::BadEscape, at),
        LexFault::WideNumber { at } => (SyntaxKind::WideNumber, at),
        LexFault::Memory => return Status::Memory,
    };
    place.note_position(source, at);
    Status::Syntax(kind)
}

/// The tokens of the source.
fn tokens_of(alloc: Global, source: &[u8], place: &mut FaultPlace) -> Result<Tokens, Status>
    requires { length source.now ≤ 67108864 }
    ensures tokens { IfOk result (λ tokens. IsTokenList source.now tokens) }
    ensures refused { IfErr result (λ end. IsRefusedSource source.now end ⊎ (end ≡ status.Memory)) }
    ensures named { IfErr result (λ end. IsTrue (is_step_end end)) }
{
    match tokens(alloc, source) {
        Ok(tokens) => Ok(tokens),
        Err(fault) => Err(lex_status(fault, source, place)),
    }
}

/// The statements of the tokens.
fn statements_of(
    alloc: Global,
    source: &[u8],
    tokens: &Tokens,
    place: &mut FaultPlace,
) -> Result<Script, Status>
    requires tokens { IsTokenList source.now tokens.now }
    requires size { length source.now ≤ 67108864 }
    ensures taken { IfOk result (λ script. IsTaken source.now tokens.now script) }
    ensures refused { IfErr result (λ end. IsRefusedSource source.now end ⊎ (end ≡ status.Memory)) }
    ensures named { IfErr result (λ end. IsTrue (is_step_end end)) }
{
    match parse(alloc, source, tokens) {
        Ok(script) => Ok(script),
        Err(SyntaxFault::TooDeep) => Err(Status::Limit(LimitKind::Depth)),
        Err(SyntaxFault::NotASentence { at }) => {
            place.note_position(source, at);
            Err(Status::Syntax(SyntaxKind::NotASentence))
        }
        Err(SyntaxFault::Memory) => Err(Status::Memory),
    }
}

/// The script of the source, where all its forms are carried out so far.
fn script_of(alloc: Global, source: &[u8], place: &mut FaultPlace) -> Result<Script, Status>
    requires { length source.now ≤ 67108864 }
    ensures script { IfOk result (λ script. IsSource source.now script) }
    ensures refused { IfErr result (λ end. IsRefusedSource source.now end ⊎ (end ≡ status.Memory)) }
    ensures named { IfErr result (λ end. IsTrue (is_step_end end)) }
{
    let tokens = tokens_of(alloc, source, place)?;
    let script = statements_of(alloc, source, &tokens, place)?;
    if let Some(form) = form_not_built(&script) {
        place.note(form.text());
        return Err(Status::NotBuilt);
    }
    Ok(script)
}

/// The script at the path, read, cut into tokens and parsed whole.
///
/// Where there is none, `place` notes where or what it was.
pub fn opened<S: Store>(
    alloc: Global,
    path: &str,
    store: &mut S,
    place: &mut FaultPlace,
) -> Result<Script, Status>
    ensures script { IfOk result (λ script. WhereTold (S.files store.old)
        (λ files. IsOpened files (command path.now) script)) }
    ensures built { IfOk result (λ script. IsTrue (is_script_built script)) }
    ensures few { IfOk result (λ script. length script ≤ 67108865) }
    ensures refused { IfErr result (OpensNone (S.files store.old) (S.opened store.new) path.now) }
    ensures named { IfErr result (λ end. IsTrue (is_step_end end)) }
    ensures step { IsRunStep S.files S.faults S.misses store.old store.new result }
{
    let source = read_source(alloc, path, store, place)?;
    script_of(alloc, source.slice(), place)
}
