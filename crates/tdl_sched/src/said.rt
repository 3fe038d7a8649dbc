ghost use Rattle.std.specs.Prelude.{◌≡◌, map};
ghost use Rattle.tdl_sched.specs.Entries.{resource_of, span_of, window_said, entry_of};

use crate::entry::{Entry, Span};
use crate::found::called;
use tdl_deploy::Resource;
use tdl_mode::Program;
use tdl_scen::number;

/// What the first word of a line reserves.
fn resource_of(word: &[u8]) -> Option<Resource>
    ensures { result ≡ resource_of word.now }
{
    if word == b"cpu".as_slice() {
        return Some(Resource::Cpu);
    }
    if word == b"bus".as_slice() {
        return Some(Resource::Bus);
    }
    None
}

/// Two numbers of 32 bits.
fn span_of(offset: u64, length: u64) -> Option<Span>
    ensures { result ≡ span_of offset length }
{
    if offset > 4_294_967_295 || length > 4_294_967_295 {
        return None;
    }
    Some(Span {
        offset: offset as u32,
        length: length as u32,
    })
}

/// What words of the window's form say.
fn window_said(program: &Program, words: &[&[u8]]) -> Option<Entry>
    ensures { result ≡ window_said program.now (map (λ word. word.now) words.now) }
{
    let [key, module, mode, invocation, offset, length] = words else {
        return None;
    };
    let resource = resource_of(key)?;
    let invocation = number(invocation)?;
    let offset = number(offset)?;
    let length = number(length)?;
    Some(Entry::Reserve {
        resource,
        called: called(program, module, mode, invocation),
        span: span_of(offset, length),
    })
}

/// What the words of a line say.
pub(crate) fn entry_of(program: &Program, words: &[&[u8]]) -> Entry
    ensures { result ≡ entry_of program.now (map (λ word. word.now) words.now) }
{
    match window_said(program, words) {
        None => Entry::Formless,
        Some(said) => said,
    }
}
