//! Long lists, long chains of references, which take no stack, and a name whose text would never end.

use crate::checks::{holds, same};
use crate::listener::Listener;
use crate::printed::{int, is_printed, print_name, read_type, tell_type};
use demangle_print::{Demangle, demangle_args};
use demangle_release::release_table;
use demangle_scope::{
    DemangleContext, DemangleError, DemangleOptions, ScopeItem, SinkFault, TextSink, scope_push,
};
use demangle_tree::{CtorDtorName, Identifier, SourceName, SubstitutionTable, TypeHandle};
use std::alloc::{AllocError, Global};

/// How many members a long list has, and how many links a long chain.
const MANY: usize = 100_000;

/// Arguments of which each has the one before twice: the text has more than 2^35 bytes.
const DOUBLING: &[u8] =
    b"_Z1f1aI1bS0_ES_IS1_S1_ES_IS2_S2_ES_IS3_S3_ES_IS4_S4_ES_IS5_S5_ES_IS6_S6_ES_IS7_S7_ES_IS8_S8_ES_IS9_S\
    9_ES_ISA_SA_ES_ISB_SB_ES_ISC_SC_ES_ISD_SD_ES_ISE_SE_ES_ISF_SF_ES_ISG_SG_ES_ISH_SH_ES_ISI_SI_ES_ISJ_S\
    J_ES_ISK_SK_ES_ISL_SL_ES_ISM_SM_ES_ISN_SN_ES_ISO_SO_ES_ISP_SP_ES_ISQ_SQ_ES_ISR_SR_ES_ISS_SS_ES_IST_S\
    T_ES_ISU_SU_ES_ISV_SV_ES_ISW_SW_ES_ISX_SX_ES_ISY_SY_ES_ISZ_SZ_E";

fn many_types(alloc: Global) -> Result<Vec<TypeHandle>, AllocError> {
    let mut types = Vec::with_capacity(alloc, MANY)?;
    for _ in 0..MANY {
        types.push(int())?;
    }
    Ok(types)
}

/// The text of so many parameters.
fn parameters(
    alloc: Global,
    types: &[TypeHandle],
    subs: &SubstitutionTable,
) -> Result<String, DemangleError> {
    let mut sink = TextSink::new(alloc);
    let mut ctx = DemangleContext::new(alloc, subs, b"", DemangleOptions::new(), &mut sink)?;
    demangle_args(types, &mut ctx, None)?;
    let _sink = ctx.end();
    Ok(sink.into_string())
}

/// How long that text is, for a long list.
fn long_length(alloc: Global) -> Option<usize> {
    let types = many_types(alloc).ok()?;
    let subs = SubstitutionTable::new(alloc);
    let text = parameters(alloc, &types, &subs);
    release_table(subs);
    Some(text.ok()?.len())
}

#[test]
fn a_long_list_is_printed(rt: HostRuntime) {
    let length = "(int)".len() + (MANY - 1) * ", int".len();
    same(&rt, "the list", long_length(rt.alloc()), Some(length));
}

/// The name of a class, and of so many constructors, each in what is before it.
fn chain_bytes(alloc: Global) -> Result<Vec<u8>, AllocError> {
    let mut bytes = Vec::new(alloc);
    bytes.extend_from_slice(b"N1a")?;
    for _ in 0..MANY {
        bytes.extend_from_slice(b"C1")?;
    }
    bytes.extend_from_slice(b"E")?;
    Ok(bytes)
}

/// What printing a constructor answers that is inherited from the chain's end, in a class of another name.
fn inherited<'a>(
    alloc: Global,
    constructor: &'a CtorDtorName,
    own: &'a SourceName,
    subs: &'a SubstitutionTable,
    input: &'a [u8],
    sink: &mut TextSink,
) -> Result<(), DemangleError> {
    let nothing = None;
    let scope = scope_push(&nothing, ScopeItem::SourceName(own));
    let mut ctx = DemangleContext::new(alloc, subs, input, DemangleOptions::new(), sink)?;
    constructor.demangle(&mut ctx, scope)
}

fn is_leaf_found(alloc: Global, end: TypeHandle, subs: &SubstitutionTable, input: &[u8]) -> bool {
    let own = SourceName(Identifier { start: 0, end: 1 });
    let constructor = CtorDtorName::CompleteConstructor(Some(end));
    let mut sink = TextSink::new(alloc);
    inherited(alloc, &constructor, &own, subs, input, &mut sink) == Ok(()) && sink.as_str() == "a"
}

fn is_stopped(alloc: Global, end: TypeHandle, subs: &SubstitutionTable, input: &[u8]) -> bool {
    let mut sink = TextSink::new(alloc);
    let answer = tell_type(alloc, &end, subs, input, &mut sink);
    answer == Some(Err(DemangleError::TooMuchRecursion)) && sink.as_str().is_empty()
}

/// Whether a leaf name is found through the chain, and whether printing it stops at the limit.
fn chain_answers(alloc: Global) -> Option<(bool, bool)> {
    let bytes = chain_bytes(alloc).ok()?;
    let input = bytes.as_slice();
    let (end, subs) = read_type(alloc, input)?;
    let answers = (
        is_leaf_found(alloc, end, &subs, input),
        is_stopped(alloc, end, &subs, input),
    );
    release_table(subs);
    Some(answers)
}

#[test]
fn a_long_chain_takes_no_stack(rt: HostRuntime) {
    same(
        &rt,
        "the chain",
        chain_answers(rt.alloc()),
        Some((true, true)),
    );
}

#[test]
fn a_text_without_end_is_stopped(rt: HostRuntime) {
    let alloc = rt.alloc();
    let options = DemangleOptions::new().recursion_limit(1024);
    let limited = options.output_limit(10_000);
    let too_long = Err(DemangleError::TooLong);
    holds(
        &rt,
        "a limit",
        is_printed(alloc, DOUBLING, limited, too_long),
    );
    let mut listener = Listener::refusing(alloc, 1_000, SinkFault::Failed);
    let answer = print_name(alloc, DOUBLING, options, &mut listener);
    same(&rt, "a refusal", answer, Some(Err(DemangleError::Sink)));
    holds(&rt, "a refusal", listener.is_in_order());
}
