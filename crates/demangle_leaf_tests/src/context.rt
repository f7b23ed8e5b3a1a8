//! What no clause says: texts, that each call is met, and that memory is there.

ghost use Rattle.std.specs.Prelude.{None, pos};
ghost use Rattle.demangle_core.specs.Core.{number, end};

use crate::checks::{holds, same};
use demangle_context::{
    Context, DemangleError, DemangleNodeType, DemangleOptions, DemangleWrite, InnerItems,
    InnerNode, SinkFault, TextSink,
};
use demangle_text::Error;
use std::alloc::{AllocError, AllocFailed, Global};
use std::process::Abort;
use std::test::Fail;

/// A node that is a number.
#[derive(Clone, Copy, Debug, PartialEq, Eq)]
struct Plain(u8);

impl InnerNode for Plain {
    ghost tree = { λ plain. number (pos plain.0) end };
}

/// A listener that counts its calls, fails at one of them, and at one has no memory.
#[derive(Drop)]
struct FaultyListener {
    calls: u64,
    fails_at: u64,
    refuses_at: u64,
    faults: u64,
    refusals: u64,
}

impl DemangleWrite for FaultyListener {
    ghost seen = { λ s. record { text = None; calls = None; faults = s.faults; refusals = s.refusals } };

    fn push_demangle_node(&mut self, _kind: DemangleNodeType) {
        self.calls = self.calls.saturating_add(1);
    }

    fn write_string(&mut self, _s: &str) -> Result<(), SinkFault> {
        let call = self.calls;
        self.calls = call.saturating_add(1);
        if call == self.fails_at {
            self.faults = self.faults.saturating_add(1);
            return Err(SinkFault::Failed);
        }
        if call == self.refuses_at {
            self.refusals = self.refusals.saturating_add(1);
            return Err(SinkFault::OutOfMemory);
        }
        Ok(())
    }

    fn pop_demangle_node(&mut self) {
        self.calls = self.calls.saturating_add(1);
    }
}

/// A listener that fails at one call.
fn failing_at(call: u64) -> FaultyListener {
    FaultyListener {
        calls: 0,
        fails_at: call,
        refuses_at: u64::MAX,
        faults: 0,
        refusals: 0,
    }
}

/// A context of plain nodes, over no table and no input.
type PlainContext<'w, W> = Context<'static, 'w, Plain, (), W>;

fn context<'w, W: 'w + DemangleWrite>(
    alloc: Global,
    options: DemangleOptions,
    out: &'w mut W,
) -> Result<PlainContext<'w, W>, DemangleError> {
    Context::new(alloc, &(), b"", options, out)
}

/// Two spaces that are asked for at the begin, and a node of one letter.
fn write_letter<W: DemangleWrite>(ctx: &mut PlainContext<'_, W>) -> Result<(), DemangleError> {
    ctx.ensure_space()?;
    ctx.ensure_space()?;
    ctx.push_node(DemangleNodeType::Prefix);
    let written = ctx.write("é");
    ctx.pop_node();
    written
}

/// Nothing, a space, and parentheses.
fn write_call<W: DemangleWrite>(ctx: &mut PlainContext<'_, W>) -> Result<(), DemangleError> {
    ctx.write("")?;
    ctx.ensure_space()?;
    ctx.write("f()")
}

#[test]
fn texts_are_written_with_spaces_between(rt: HostRuntime) -> Result<(), Fail> {
    let mut sink = TextSink::new(rt.alloc());
    let mut ctx = context(rt.alloc(), DemangleOptions::new(), &mut sink)?;
    same(&rt, "the begin", ctx.last_char(), None);
    same(&rt, "the letter", write_letter(&mut ctx), Ok(()));
    same(&rt, "the letter", ctx.last_char(), Some('é'));
    holds(&rt, "the letter", !ctx.ends_in(')'));
    same(&rt, "the call", write_call(&mut ctx), Ok(()));
    holds(&rt, "the call", ctx.ends_in(')'));
    let _sink = ctx.end();
    same(&rt, "the text", sink.as_str(), " é f()");
    same(&rt, "the string", sink.into_string().as_str(), " é f()");
    Ok(())
}

/// Limits on the bytes, how often the listener is called, and what is answered.
static ROOMS: [(usize, u64, Result<(), DemangleError>); 4] = [
    (0, 0, Err(DemangleError::TooLong)),
    (1, 0, Err(DemangleError::TooLong)),
    (2, 1, Err(DemangleError::TooLong)),
    (3, 2, Ok(())),
];

#[test]
fn the_room_is_judged_first(rt: HostRuntime) -> Result<(), Fail> {
    for (bytes, calls, want) in &ROOMS {
        let mut listener = failing_at(u64::MAX);
        let options = DemangleOptions::new().output_limit(*bytes);
        let mut ctx = context(rt.alloc(), options, &mut listener)?;
        same(&rt, *bytes, ctx.write(""), Ok(()));
        let answer = ctx.write("é").and_then(|_| ctx.ensure_space());
        let _listener = ctx.end();
        same(&rt, *bytes, answer, *want);
        same(&rt, *bytes, listener.calls, *calls);
    }
    Ok(())
}

/// The call that fails, the one that has no memory, what is answered, and the last character then.
static REFUSALS: [(u64, u64, Result<(), DemangleError>, Option<char>); 3] = [
    (9, 9, Ok(()), Some('a')),
    (0, 9, Err(DemangleError::Sink), None),
    (9, 0, Err(DemangleError::OutOfMemory), None),
];

#[test]
fn refusals_of_the_listener_are_told(rt: HostRuntime) -> Result<(), Fail> {
    for (fails_at, refuses_at, want, last) in &REFUSALS {
        let mut listener = failing_at(*fails_at);
        listener.refuses_at = *refuses_at;
        let mut ctx = context(rt.alloc(), DemangleOptions::new(), &mut listener)?;
        same(&rt, *fails_at, ctx.write("a"), *want);
        same(&rt, *fails_at, ctx.last_char(), *last);
        same(&rt, *fails_at, ctx.write("b"), Ok(()));
    }
    Ok(())
}

#[test]
fn levels_end_at_the_limit(rt: HostRuntime) -> Result<(), Fail> {
    let mut sink = TextSink::new(rt.alloc());
    let options = DemangleOptions::new().recursion_limit(2);
    let mut ctx = context(rt.alloc(), options, &mut sink)?;
    same(&rt, "the first level", ctx.enter(), Ok(()));
    let deep = Err(DemangleError::TooMuchRecursion);
    same(&rt, "the second level", ctx.enter(), deep);
    same(&rt, "both levels", ctx.recursion_level(), 1);
    Ok(())
}

fn a_kept_item_returns<W: DemangleWrite>(
    rt: &impl Abort,
    ctx: &mut PlainContext<'_, W>,
) -> Result<(), DemangleError> {
    ctx.push_inner(Plain(0))?;
    ctx.keep_inner()?;
    same(rt, "kept", ctx.kept_len(), 1);
    ctx.return_kept(1)?;
    same(rt, "returned", ctx.pop_inner(), Some(Plain(0)));
    same(rt, "taken", ctx.pop_inner(), None);
    Ok(())
}

fn items_are_set_aside<W: DemangleWrite>(
    rt: &impl Abort,
    ctx: &mut PlainContext<'_, W>,
) -> Result<(), DemangleError> {
    ctx.push_inner(Plain(1))?;
    let saved = ctx.barrier();
    same(rt, "set aside", ctx.inner_at(0), None);
    ctx.enter()?;
    items_wait(rt, ctx)?;
    ctx.push_inner(Plain(4))?;
    ctx.restore(saved);
    same(rt, "restored", ctx.pop_inner(), Some(Plain(1)));
    ctx.return_kept(9)?;
    same(rt, "returned", ctx.pop_inner(), Some(Plain(2)));
    Ok(())
}

fn items_wait<W: DemangleWrite>(
    rt: &impl Abort,
    ctx: &mut PlainContext<'_, W>,
) -> Result<(), DemangleError> {
    ctx.push_inner(Plain(2))?;
    ctx.push_inner(Plain(3))?;
    same(rt, "the first", ctx.inner_at(1), Some(Plain(2)));
    same(rt, "both", ctx.inner_len(), 2);
    holds(rt, "none", !ctx.pop_inner_if(0));
    holds(rt, "the second", ctx.pop_inner_if(1));
    ctx.keep_inner()
}

#[test]
fn items_wait_are_set_aside_and_kept(rt: HostRuntime) -> Result<(), Fail> {
    let mut sink = TextSink::new(rt.alloc());
    let mut ctx = context(rt.alloc(), DemangleOptions::new(), &mut sink)?;
    a_kept_item_returns(&rt, &mut ctx)?;
    items_are_set_aside(&rt, &mut ctx)?;
    ctx.set_source_name("a");
    same(&rt, "the source name", ctx.source_name(), Some("a"));
    same(&rt, "the input", ctx.input(), b"".as_slice());
    same(&rt, "the table", *ctx.subs(), ());
    Ok(())
}

#[test]
fn stacks_that_were_made_before_serve(rt: HostRuntime) -> Result<(), Fail> {
    let options = DemangleOptions::new().no_params().no_return_type();
    let mut sink = TextSink::new(rt.alloc());
    let items: InnerItems<Plain> = InnerItems::new(rt.alloc(), options.limit())?;
    let ctx = Context::begin(items, &(), b"", options, &mut sink);
    assert!(rt; !ctx.flags.params && !ctx.flags.returns && ctx.flags.littypes);
    Ok(())
}

#[test]
fn options_are_the_default_or_not(rt: HostRuntime) {
    let options = DemangleOptions::default();
    same(&rt, options, options.output_bytes(), None);
    same(
        &rt,
        options,
        options.output_limit(0).output_bytes(),
        Some(0),
    );
    for (options, want) in [
        (DemangleOptions::new(), true),
        (options.recursion_limit(128), true),
        (options.recursion_limit(127), false),
        (options.no_params(), false),
        (options.no_return_type(), false),
        (options.hide_expression_literal_types(), false),
        (options.output_limit(0), false),
    ] {
        same(&rt, options, options.is_default(), want);
    }
}

/// Each error's text.
static TEXTS: [(DemangleError, &str); 6] = [
    (
        DemangleError::Reference(Error::BadLeafNameReference),
        "reference to a leaf name in a context where there is no current leaf name",
    ),
    (
        DemangleError::TooMuchRecursion,
        "encountered too much recursion when printing symbol",
    ),
    (DemangleError::NotUtf8, "literal is not valid UTF-8"),
    (DemangleError::TooLong, "text is longer than the limit"),
    (DemangleError::Sink, "sink refused a piece"),
    (DemangleError::OutOfMemory, "out of memory"),
];

#[test]
fn errors_have_their_texts(rt: HostRuntime) {
    for (error, text) in &TEXTS {
        same(&rt, *error, error.text(), *text);
    }
    let refused = AllocFailed { value: 1u8 };
    let faults = (SinkFault::from(AllocError), SinkFault::from(refused));
    same(&rt, "faults", faults.0, SinkFault::OutOfMemory);
    same(&rt, "faults", faults.1, SinkFault::OutOfMemory);
    let error = DemangleError::from(SinkFault::Failed);
    same(&rt, "errors", error, DemangleError::Sink);
    let error = DemangleError::from(AllocError);
    same(&rt, "errors", error, DemangleError::OutOfMemory);
}
