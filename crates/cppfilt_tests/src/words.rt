//! Words of the command line, inputs, and what is written for them.

/// Words, separated by blanks, an input, and what is written for them.
pub(crate) static RUNS: [(&str, &[u8], &[u8]); 58] = [
    ("", b"foo\n_Z1fv\r\n_Z", b"foo\nf()\r\n_Z"),
    (
        "--why",
        b"foo\n_Z1fv\r\n_Z",
        b"foo\nf()\r\n_Z\tmangled symbol ends abruptly",
    ),
    ("", b"i", b"i"),
    ("--types", b"i", b"int"),
    ("-t", b"PFivE\r\nfoo\n", b"int (*)()\r\nfoo\n"),
    ("-tw", b"QQ\n", b"QQ\tmangled symbol is not well-formed\n"),
    ("", b"", b""),
    ("", b"\n", b"\n"),
    ("", b"\n\n_Z1fv\n\n", b"\n\nf()\n\n"),
    ("", b"_Z1fv\r", b"f()\r"),
    ("", b"\r\n\r", b"\r\n\r"),
    ("", b"_Z1fv\r\r\n", b"_Z1fv\r\r\n"),
    ("", b"_Z1fv\rx\n", b"_Z1fv\rx\n"),
    ("", b"_Z1fv \n _Z1fv\n", b"_Z1fv \n _Z1fv\n"),
    ("", b"_Z1fv\0\n\0\n_Z1fv\n", b"_Z1fv\0\n\0\nf()\n"),
    ("", b"\xff\xfe\n_Z2\xc3\xa9v\n", b"\xff\xfe\n\xc3\xa9()\n"),
    ("", b"_\n_Z\n__Z1fv\n___Z1fv\n", b"_\n_Z\nf()\n___Z1fv\n"),
    (
        "",
        b"____Z1fv_block_invoke_2\n_GLOBAL__I_1f\n_GLOBAL_\n_____Z1fv\n",
        b"invocation function for block in f()\nglobal constructors keyed to f\n_GLOBAL_\n_____Z1fv\n",
    ),
    (
        "",
        b"_ZNSt6vectorIiSaIiEE9push_backERKi",
        b"std::vector<int, std::allocator<int> >::push_back(int const&)",
    ),
    (
        "",
        b"_Z1gv\n_Z1fT_\n_Z1fIT_Evv\n_Z1hv",
        b"g()\n_Z1fT_\n_Z1fIT_Evv\nh()",
    ),
    ("", b"_Z3fooib\nhello\n", b"foo(int, bool)\nhello\n"),
    ("", b"_Z1fvv\n_Z3foo\n", b"f(void, void)\nfoo\n"),
    ("_Z1fv foo", b"_Z1gv\n", b"f()\nfoo\n"),
    ("-p _Z1fIiEvT_", b"", b"void f<int>\n"),
    ("_Z1fIiEvT_ -r", b"", b"f<int>(int)\n"),
    ("-pr _Z1fIiEvT_", b"", b"f<int>\n"),
    ("--no-params --no-return-type", b"_Z1fIiEvT_\n", b"f<int>\n"),
    ("-l _Z1fILm5EEvv", b"", b"void f<5>()\n"),
    ("_Z1fILm5EEvv", b"", b"void f<(unsigned long)5>()\n"),
    (
        "--hide-literal-types --types",
        b"_Z1fILm5EEvv\ni",
        b"void f<5>()\nint",
    ),
    ("-w foo _Z", b"", b"foo\n_Z\tmangled symbol ends abruptly\n"),
    (
        "-tw i QQ",
        b"",
        b"int\nQQ\tmangled symbol is not well-formed\n",
    ),
    (
        "-w _ZC1v",
        b"",
        b"_ZC1v\treference to a leaf name in a context where there is no current leaf name\n",
    ),
    (
        "-w",
        b"_ZTC1a99999999999999999999_1b\n_Z1fT_\n",
        b"_ZTC1a99999999999999999999_1b\tan overflow or underflow would occur when parsing an integer in a mangled \
          symbol\n_Z1fT_\treference to a template arg that is either out-of-bounds, or in a context without template \
          args\n",
    ),
    (
        "-w",
        b"_Z1fIT_Evv\n_Z1fILi\xffEEvv\n",
        b"_Z1fIT_Evv\treference to a template arg from itself or a later template arg\n_Z1fILi\xffEEvv\tliteral is \
          not valid UTF-8\n",
    ),
    ("-- -x --why", b"", b"-x\n--why\n"),
    ("-p -- -r _Z1fIiEvT_", b"", b"-r\nvoid f<int>\n"),
    ("-", b"_Z1fv\n", b"-\n"),
    ("--", b"_Z1fv\n", b"f()\n"),
    (
        "--max-output 2 --why _Z1fv",
        b"",
        b"_Z1fv\ttext is longer than the limit\n",
    ),
    ("--max-output=3 _Z1fv", b"", b"f()\n"),
    ("--max-output 1073741824 _Z1fv", b"", b"f()\n"),
    (
        "--parse-limit 4 -tw",
        b"i",
        b"i\tencountered too much recursion when demangling symbol",
    ),
    ("--parse-limit 5 -tw", b"i", b"int"),
    (
        "--print-limit=3 -tw",
        b"i",
        b"i\tencountered too much recursion when printing symbol",
    ),
    ("--print-limit=4 -tw", b"i", b"int"),
    (
        "--print-limit 1 --why _Z1fv",
        b"",
        b"_Z1fv\tencountered too much recursion when printing symbol\n",
    ),
    (
        "--print-limit 1024 --parse-limit 1024",
        b"_Z1fv\n",
        b"f()\n",
    ),
    (
        "-tw",
        b"PPPPPPPPPPPPPPPPPPPPPPPPPPPPPPPPPPPPPPPPPPPPPPPPPPPPPPPPPPPPPPPPPPPPPPPPPPPPPPPPPPPPPPPi\n",
        b"int***************************************************************************************\n",
    ),
    (
        "-tw",
        b"PPPPPPPPPPPPPPPPPPPPPPPPPPPPPPPPPPPPPPPPPPPPPPPPPPPPPPPPPPPPPPPPPPPPPPPPPPPPPPPPPPPPPPPPi\n",
        b"PPPPPPPPPPPPPPPPPPPPPPPPPPPPPPPPPPPPPPPPPPPPPPPPPPPPPPPPPPPPPPPPPPPPPPPPPPPPPPPPPPPPPPPPi\t\
          encountered too much recursion when demangling symbol\n",
    ),
    ("--sample 1", b"_Z1fv\n", b"names 1 read 1 bytes 7\n"),
    ("--sample 2", b"", b"names 2 read 2 bytes 41\n"),
    ("--sample 3 foo", b"", b"names 3 read 3 bytes 82\n"),
    (
        "--sample 3 --max-output 20",
        b"",
        b"names 3 read 1 bytes 7\n",
    ),
    ("--sample 1000", b"", b"names 1000 read 1000 bytes 48553\n"),
    (
        "--sample 1000 -p",
        b"",
        b"names 1000 read 1000 bytes 21553\n",
    ),
    (
        "--sample=1000 --parse-limit=1",
        b"",
        b"names 1000 read 0 bytes 0\n",
    ),
    (
        "--sample 100000 --parse-limit 1",
        b"",
        b"names 100000 read 0 bytes 0\n",
    ),
];

/// Words that are wrong, and what is told of them first.
pub(crate) static MISTAKES: [(&str, &str); 22] = [
    ("--bogus", "error: unexpected argument '--bogus' found\n"),
    ("-x", "error: unexpected argument '-x' found\n"),
    (
        "--version",
        "error: unexpected argument '--version' found\n",
    ),
    (
        "--why=yes",
        "error: unexpected value 'yes' for '--why' found; no more were expected\n",
    ),
    (
        "-p -p",
        "error: the argument '--no-params' cannot be used multiple times\n",
    ),
    (
        "--sample",
        "error: a value is required for '--sample <N>' but none was supplied\n",
    ),
    (
        "--parse-limit 0",
        "error: invalid value '0' for '--parse-limit <N>': not a number from 1 to 1024\n",
    ),
    (
        "--parse-limit 1025",
        "error: invalid value '1025' for '--parse-limit <N>': not a number from 1 to 1024\n",
    ),
    (
        "--print-limit=05",
        "error: invalid value '05' for '--print-limit <N>': not a number from 1 to 1024\n",
    ),
    (
        "--print-limit=+5",
        "error: invalid value '+5' for '--print-limit <N>': not a number from 1 to 1024\n",
    ),
    (
        "--print-limit=5x",
        "error: invalid value '5x' for '--print-limit <N>': not a number from 1 to 1024\n",
    ),
    (
        "--print-limit=",
        "error: invalid value '' for '--print-limit <N>': not a number from 1 to 1024\n",
    ),
    (
        "--max-output 1073741825",
        "error: invalid value '1073741825' for '--max-output <N>': not a number from 1 to 1073741824\n",
    ),
    (
        "--sample 100001 foo",
        "error: invalid value '100001' for '--sample <N>': not a number from 1 to 100000\n",
    ),
    (
        "--sample 99999999999999999999",
        "error: invalid value '99999999999999999999' for '--sample <N>': not a number from 1 to 100000\n",
    ),
    (
        "--print-limit 0",
        "error: invalid value '0' for '--print-limit <N>': not a number from 1 to 1024\n",
    ),
    (
        "--print-limit 1025",
        "error: invalid value '1025' for '--print-limit <N>': not a number from 1 to 1024\n",
    ),
    (
        "--max-output 0",
        "error: invalid value '0' for '--max-output <N>': not a number from 1 to 1073741824\n",
    ),
    (
        "--sample 0",
        "error: invalid value '0' for '--sample <N>': not a number from 1 to 100000\n",
    ),
    (
        "--sample=-5",
        "error: invalid value '-5' for '--sample <N>': not a number from 1 to 100000\n",
    ),
    (
        "--parse-limit 5 --parse-limit=6",
        "error: the argument '--parse-limit <N>' cannot be used multiple times\n",
    ),
    (
        "_Z1fv --bogus foo",
        "error: unexpected argument '--bogus' found\n",
    ),
];

/// The help text.
pub(crate) const HELP: &str = "\
Show C++ linker names as the names in the source.

Standard input is copied to standard output, line by line. A line that consists
of one linker name of the Itanium C++ ABI, as GCC and Clang make them, becomes
its text. Any other line stays as it is.

Usage: cppfilt [OPTIONS] [NAME]...

Arguments:
  [NAME]...  Show these names, one a line, and leave standard input unread

Options:
  -p, --no-params           Leave out the parameters of functions
  -r, --no-return-type      Leave out the return types of function templates
  -l, --hide-literal-types  Leave out the types of literals
  -t, --types               Take each line or NAME for a linker name, so that
                            encoded types are shown too
  -w, --why                 Put a tab and the cause behind a name with no text
      --parse-limit <N>     Levels of nesting a name may have, 1 to 1024
                            [default: 96]; raise it where cppfilt --why says
                            \"too much recursion when demangling\"
      --print-limit <N>     Levels of nesting its text may have, 1 to 1024
                            [default: 128]; raise it where cppfilt --why says
                            \"too much recursion when printing\"
      --max-output <N>      Bytes its text may have, 1 to 1073741824
                            [default: any number]
      --sample <N>          Self-test: demangle N made-up names, 1 to 100000,
                            and write `names N read R bytes B`: R of them have
                            a text, and these texts have B bytes together
  -h, --help                Print help

A line or NAME of at most 1048576 bytes is taken for a linker name where it
begins with _Z, __Z, ___Z, ____Z or _GLOBAL_; with --types each is. One that
can't be read or shown stays as it is. A crafted name may take very long, since
parts of a name that fail are read again, and its text may take all memory: for
names from strangers set a low --parse-limit, and --max-output.

Examples:
  Show a name:
      cppfilt _ZNSt6vectorIiSaIiEE9push_backERKi
  Show the symbols of an object file, and those that a library exports:
      nm -P main.o | sed 's/[ @].*//' | cppfilt
      nm -DP libmain.so | sed 's/[ @].*//' | cppfilt
  Show the names inside the lines of a trace, a log, a disassembly:
      cppfilt_text < trace
  Tell why some names have no text:
      cppfilt --why < names.txt

Exit status:
  0  done, or help was asked for
  2  wrong words
  3  a read failed
  4  a write failed
  5  the input has more than 2^40 bytes
  6  out of memory
";
