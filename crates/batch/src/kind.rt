// The kinds of event: the word and the number of each, and which strings an event of it has.

#[derive(Drop)]
pub(crate) struct Kind {
    pub(crate) number: u32,
    pub(crate) word: &'static str,
    // URI or target or text, local name or text, prefix, value
    pub(crate) strings: [bool; 4],
}

static KINDS: [Kind; 8] = [
    Kind {
        number: 1,
        word: "SD",
        strings: [false, false, false, false],
    },
    Kind {
        number: 2,
        word: "ED",
        strings: [false, false, false, false],
    },
    Kind {
        number: 3,
        word: "SE",
        strings: [true, true, false, false],
    },
    Kind {
        number: 4,
        word: "AT",
        strings: [true, true, false, true],
    },
    Kind {
        number: 5,
        word: "EE",
        strings: [false, false, false, false],
    },
    Kind {
        number: 6,
        word: "CH",
        strings: [true, false, false, false],
    },
    Kind {
        number: 7,
        word: "CM",
        strings: [true, false, false, false],
    },
    Kind {
        number: 8,
        word: "PI",
        strings: [true, true, false, false],
    },
];

impl Kind {
    // The kind with this word, in either case.
    pub(crate) fn with_word(word: &str) -> Option<&'static Kind> {
        KINDS.iter().find(|k| k.word.eq_ignore_ascii_case(word))
    }

    pub(crate) fn with_number(number: u32) -> Option<&'static Kind> {
        KINDS.iter().find(|k| k.number == number)
    }
}
