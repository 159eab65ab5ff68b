//! The words that a hint may be of: those of other Forths, and those of source.

ghost use Rattle.std.specs.Prelude.{◌≡◌, true, map};
ghost use Rattle.std.specs.List.{list_all};
ghost use Rattle.ga_parser.specs.Hints.{foreign_words, known_source_words};
ghost use Rattle.ga_parser.specs.inner.Hinting.{row_of, name_of_known_word, has_short_hint, is_short_name};

/// A word of another Forth or of an assembler, and what says it here.
pub(crate) struct ForeignWord {
    pub word: &'static [u8],
    pub here: &'static [u8],
}

/// A word that source has.
pub(crate) struct KnownWord {
    pub name: &'static [u8],
}

static OTHER_WORDS: &[ForeignWord] = &[
    ForeignWord {
        word: b">r",
        here: b"push",
    },
    ForeignWord {
        word: b"r>",
        here: b"pop",
    },
    ForeignWord {
        word: b"r@",
        here: b"pop dup push",
    },
    ForeignWord {
        word: b"2dup",
        here: b"over over",
    },
    ForeignWord {
        word: b"2drop",
        here: b"drop drop",
    },
    ForeignWord {
        word: b"nip",
        here: b"push drop pop",
    },
    ForeignWord {
        word: b"swap",
        here: b"over push push drop pop pop",
    },
    ForeignWord {
        word: b"tuck",
        here: b"over push push drop pop pop over",
    },
    ForeignWord {
        word: b"rot",
        here: b"push push a! pop pop a, which changes A",
    },
    ForeignWord {
        word: b"1+",
        here: b"1 . +",
    },
    ForeignWord {
        word: b"1-",
        here: b"-1 . +",
    },
    ForeignWord {
        word: b"negate",
        here: b"inv 1 . +",
    },
    ForeignWord {
        word: b"*",
        here: b"+*, one step",
    },
    ForeignWord {
        word: b"lshift",
        here: b"2*, one bit",
    },
    ForeignWord {
        word: b"<<",
        here: b"2*, one bit",
    },
    ForeignWord {
        word: b"rshift",
        here: b"2/, one bit",
    },
    ForeignWord {
        word: b">>",
        here: b"2/, one bit",
    },
    ForeignWord {
        word: b"not",
        here: b"inv",
    },
    ForeignWord {
        word: b"~",
        here: b"inv",
    },
    ForeignWord {
        word: b"&",
        here: b"and",
    },
    ForeignWord {
        word: b"^",
        here: b"xor",
    },
    ForeignWord {
        word: b"|",
        here: b"dup push inv and pop xor",
    },
    ForeignWord {
        word: b"a@",
        here: b"a",
    },
    ForeignWord {
        word: b"@a",
        here: b"@",
    },
    ForeignWord {
        word: b"!a",
        here: b"!",
    },
    ForeignWord {
        word: b"@a+",
        here: b"@+",
    },
    ForeignWord {
        word: b"!a+",
        here: b"!+",
    },
    ForeignWord {
        word: b"do",
        here: b"for",
    },
    ForeignWord {
        word: b"loop",
        here: b"next",
    },
    ForeignWord {
        word: b"if,",
        here: b"if",
    },
    ForeignWord {
        word: b"endif",
        here: b"then",
    },
    ForeignWord {
        word: b"exit",
        here: b";",
    },
    ForeignWord {
        word: b";s",
        here: b";",
    },
    ForeignWord {
        word: b"call",
        here: b"NAME",
    },
    ForeignWord {
        word: b"jump",
        here: b"NAME ;",
    },
    ForeignWord {
        word: b"variable",
        here: b": NAME 0 ,",
    },
    ForeignWord {
        word: b"create",
        here: b": NAME",
    },
    ForeignWord {
        word: b"equ",
        here: b"N constant NAME",
    },
    ForeignWord {
        word: b",",
        here: b"N ,",
    },
    ForeignWord {
        word: b"end",
        here: b"end on a line of its own",
    },
    ForeignWord {
        word: b"expect",
        here: b"expect begins a line of its own",
    },
    ForeignWord {
        word: b"//",
        here: b"\\",
    },
    ForeignWord {
        word: b"#",
        here: b"\\",
    },
    ForeignWord {
        word: b"--",
        here: b"\\",
    },
];

static KNOWN_WORDS: &[KnownWord] = &[
    KnownWord { name: b"drop" },
    KnownWord { name: b"dup" },
    KnownWord { name: b"pop" },
    KnownWord { name: b"over" },
    KnownWord { name: b"push" },
    KnownWord { name: b"and" },
    KnownWord { name: b"or" },
    KnownWord { name: b"xor" },
    KnownWord { name: b"inv" },
    KnownWord { name: b"invert" },
    KnownWord { name: b"nop" },
    KnownWord { name: b"ex" },
    KnownWord { name: b"a" },
    KnownWord { name: b"a!" },
    KnownWord { name: b"b!" },
    KnownWord { name: b"begin" },
    KnownWord { name: b"for" },
    KnownWord { name: b"next" },
    KnownWord { name: b"unext" },
    KnownWord { name: b"*next" },
    KnownWord { name: b"again" },
    KnownWord { name: b"until" },
    KnownWord { name: b"-until" },
    KnownWord { name: b"while" },
    KnownWord { name: b"-while" },
    KnownWord { name: b"repeat" },
    KnownWord { name: b"if" },
    KnownWord { name: b"-if" },
    KnownWord { name: b"ahead" },
    KnownWord { name: b"else" },
    KnownWord { name: b"then" },
    KnownWord { name: b"org" },
    KnownWord { name: b"node" },
    KnownWord { name: b"expect" },
    KnownWord { name: b"constant" },
    KnownWord { name: b"right" },
    KnownWord { name: b"down" },
    KnownWord { name: b"left" },
    KnownWord { name: b"up" },
    KnownWord { name: b"io" },
];

/// The words of other Forths.
pub(crate) fn foreign_words() -> &'static [ForeignWord]
    ensures rows { map row_of result.now ≡ foreign_words }
    ensures short { list_all has_short_hint result.now ≡ true }
{
    OTHER_WORDS
}

/// The words of source, beside those that are one sign.
pub(crate) fn known_source_words() -> &'static [KnownWord]
    ensures names { map name_of_known_word result.now ≡ known_source_words }
    ensures short { list_all is_short_name result.now ≡ true }
{
    KNOWN_WORDS
}
