//! Names by one demangler.

use demangle_context::DemangleOptions;
use demangle_text::ParseOptions;
use demangler::{Demangler, demangle_symbol};
use std::test::Fail;

/// Names of many kinds, and what is none.
static NAMES: [&[u8]; 10] = [
    b"_ZN5space3fooEibc",
    b"_ZN5space3fooEibc and some trailing junk",
    b"_Z1fP1aS0_",
    b"_Z1fP1aS1_",
    b"_ZNSt6vectorIiSaIiEE9push_backERKi",
    b"_Z1fPFPFivEvE",
    b"_Z1fIiEDTplfp_Li1EET_",
    b"_Z1fIT_EvS_",
    b"_ZGR1x1Y2P0IJ32E8E7_",
    b"",
];

#[test]
fn each_has_its_own_text(rt: HostRuntime) -> Result<(), Fail> {
    let parse = ParseOptions::default();
    let print = DemangleOptions::default();
    let mut demangler = Demangler::new(rt.alloc());
    let mut text = String::new(rt.alloc());
    for name in &NAMES {
        let answer = demangler.demangle(*name, &mut text, &parse, &print);
        match demangle_symbol(rt.alloc(), *name, &parse, &print) {
            Ok(alone) => {
                assert_eq!(rt; answer, Ok(()));
                assert_eq!(rt; text.as_str(), alone.as_str());
            }
            Err(fault) => {
                assert_eq!(rt; answer, Err(fault));
                assert_eq!(rt; text.as_str(), "");
            }
        }
    }
    Ok(())
}

#[test]
fn a_text_is_told(rt: HostRuntime) -> Result<(), Fail> {
    let parse = ParseOptions::default();
    let print = DemangleOptions::default();
    let mut demangler = Demangler::new(rt.alloc());
    let mut text = String::from_str(rt.alloc(), "before")?;
    assert_eq!(rt;
        demangler.demangle(b"_Z1fPFPFivEvE", &mut text, &parse, &print),
        Ok(())
    );
    assert_eq!(rt; text.as_str(), "f(int (*(*)())())");
    Ok(())
}

#[test]
fn the_largest_temporary_has_its_number(rt: HostRuntime) -> Result<(), Fail> {
    let text = demangle_symbol(
        rt.alloc(),
        b"_ZGR1x1Y2P0IJ32E8E7_",
        &ParseOptions::default(),
        &DemangleOptions::default(),
    );
    assert_eq!(rt;
        text.unwrap_or(String::new(rt.alloc())).as_str(),
        "reference temporary #9223372036854775808 for x"
    );
    Ok(())
}
