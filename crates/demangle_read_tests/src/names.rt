//! Names, and what reading them answers.

use crate::answers::{Crafted, Reading};

/// Names at the front.
pub(crate) static FRONTS: [Reading; 25] = [
    (b"", 96, "UnexpectedEnd"),
    (b"_Z", 96, "UnexpectedEnd"),
    (b"_ZGR", 96, "UnexpectedEnd"),
    (b"QQ", 96, "UnexpectedText"),
    (b"____Z1fv_bl", 96, "UnexpectedEnd"),
    (b"_Z99999999999999999999f", 96, "UnexpectedText"),
    (b"_ZTC1a99999999999999999999_1b", 96, "Overflow"),
    (b"_Z1fP1aS_", 96, "encoding 9, components 2 0"),
    (b"_Z1fP1aS0_", 96, "encoding 10, components 2 0"),
    (b"_Z1fP1aS1_", 96, "encoding 7, components 2 0"),
    (b"_ZN1acvT_IiEEv", 96, "encoding 14, components 3 1"),
    (b"_ZN1AcvT_IiEI1CEEv", 96, "encoding 18, components 5 1"),
    (b"_Z1fIiEDTplfp_Li1EET_", 96, "encoding 21, components 3 0"),
    (
        b"_Z1gIiEDTcmgsdlfp_psfp_EPT_E",
        96,
        "encoding 27, components 4 0",
    ),
    (b"_ZGR1a0_E", 96, "encoding 8, components 0 0"),
    (b"____Z1fv_block_invoke_2E", 96, "block 23, components 0 0"),
    (b"_GLOBAL__I_ii", 96, "global 12, components 0 0"),
    (b"i", 4, "TooMuchRecursion"),
    (b"i", 5, "type 1, components 0 0"),
    (b"Pi", 9, "TooMuchRecursion"),
    (b"Pi", 10, "type 2, components 1 0"),
    (b"_Z1_", 11, "TooMuchRecursion"),
    (b"_Z1_", 12, "encoding 4, components 0 0"),
    (b"E", 9, "TooMuchRecursion"),
    (b"E", 10, "UnexpectedEnd"),
];

/// Whole names.
pub(crate) static WHOLES: [Reading; 6] = [
    (b"", 96, "UnexpectedEnd"),
    (b"_Z1fP1aS_", 96, "encoding, components 2 0"),
    (b"_Z1fP1aS1_", 96, "UnexpectedText"),
    (b"_ZGR1a0_E", 96, "UnexpectedText"),
    (b"_ZGR1a0_", 96, "encoding, components 0 0"),
    (b"i", 4, "TooMuchRecursion"),
];

/// Crafted names: parts of them fail, and are read again.
pub(crate) static CRAFTED: [Crafted; 22] = [
    (b"_Z1fIX", b"nw", 9, b"", 96, "UnexpectedText"),
    (b"_Z1fIX", b"na", 9, b"", 1024, "UnexpectedText"),
    (
        b"_Z1fIXil",
        b"nwtrtrtr",
        8,
        b"EEEvv",
        96,
        "encoding, components 1 0",
    ),
    (b"_Z1f", b"SaI", 9, b"", 96, "UnexpectedText"),
    (b"_Z1f1a", b"S_I", 9, b"", 1024, "UnexpectedText"),
    (b"_Z1f", b"SaI1x", 8, b"", 96, "UnexpectedText"),
    (b"_Z1fIX", b"LA", 9, b"", 96, "UnexpectedText"),
    (b"_Z1fIX", b"LDt", 9, b"", 96, "UnexpectedText"),
    (b"_Z1f", b"IL1a", 7, b"", 1024, "UnexpectedText"),
    (b"_Z1f", b"IL1a", 10, b"", 63, "TooMuchRecursion"),
    (b"_Z1f", b"CI1", 10, b"", 1024, "UnexpectedText"),
    (b"_Z1f", b"CI1", 36, b"", 1024, "UnexpectedText"),
    (b"_Z1f", b"CI1", 8, b"", 67, "TooMuchRecursion"),
    (b"_Z1f", b"CI1", 8, b"", 68, "UnexpectedText"),
    (b"_Z", b"UlTs", 9, b"", 96, "UnexpectedText"),
    (b"_Z", b"cvTs", 9, b"", 96, "UnexpectedText"),
    (b"_ZN1acv", b"T_I", 10, b"", 96, "UnexpectedText"),
    (b"_ZN1acv", b"T_I", 8, b"E", 96, "UnexpectedText"),
    (b"_ZN1acv", b"T_IN1a1bE", 8, b"", 96, "UnexpectedText"),
    (
        b"_Z1f",
        b"N1acvT_I",
        6,
        b"iEEEEEEEEEEEE",
        96,
        "encoding, components 24 6",
    ),
    (
        b"_Z1f",
        b"N1acvT_I",
        8,
        b"iEEEEEEEEEEEEEEEE",
        96,
        "TooMuchRecursion",
    ),
    (b"_Z1f", b"St6vectorI", 9, b"", 96, "UnexpectedText"),
];
