//! The forms of a command: what the words may be.

ghost use Rattle.std.specs.Prelude.{◌≡◌, map};
ghost use Rattle.desk_words.specs.Desk.{all_forms, seen};

/// What a first word may be, and the words behind it.
#[derive(Clone, Copy, Debug)]
pub struct Form {
    /// The first word.
    pub name: &'static str,
    /// What the words behind it tell, in their order. Each has to be there.
    pub places: &'static [&'static str],
    /// What the words behind these tell, each of which may be missing.
    pub further: &'static [&'static str],
    /// The names of the options. Each may be said once, anywhere behind the first word, as `--NAME VALUE` or `--NAME=VALUE`.
    pub options: &'static [&'static str],
}

static FORMS: [Form; 11] = [
    Form {
        name: "run",
        places: &["capture", "out"],
        further: &[],
        options: &[
            "mode", "think", "connect", "remap", "change", "lanes", "target",
        ],
    },
    Form {
        name: "prepare",
        places: &["capture", "out"],
        further: &[],
        options: &[],
    },
    Form {
        name: "serve",
        places: &["capture", "start", "connections"],
        further: &[],
        options: &["port"],
    },
    Form {
        name: "generate",
        places: &["calls", "out"],
        further: &[],
        options: &[],
    },
    Form {
        name: "trial",
        places: &["calls"],
        further: &[],
        options: &[],
    },
    Form {
        name: "register",
        places: &["out", "run"],
        further: &[],
        options: &[],
    },
    Form {
        name: "runs",
        places: &[],
        further: &[],
        options: &[],
    },
    Form {
        name: "accept",
        places: &["run", "stamp", "class"],
        further: &[],
        options: &[],
    },
    Form {
        name: "compare",
        places: &["base", "other"],
        further: &[],
        options: &[],
    },
    Form {
        name: "page",
        places: &["capture", "out"],
        further: &[],
        options: &[],
    },
    Form {
        name: "show",
        places: &["capture", "out"],
        further: &["stamp"],
        options: &[],
    },
];

/// The forms, in the order in which they are told.
pub fn forms() -> &'static [Form]
    ensures { map seen result.now ≡ all_forms }
{
    &FORMS
}
