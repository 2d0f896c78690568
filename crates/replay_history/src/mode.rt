use desk_values::Word;

/// How a replay is synchronized: which calls must be answered before a call is taken, beside those before it in its own
/// session. Oracle's Database Testing Guide has the modes by SCN, the number of a commit, and by object; Galanis et al.,
/// "Oracle Database Replay", SIGMOD 2008, say why.
#[derive(Clone, Copy, Debug, PartialEq, Eq)]
pub enum Mode {
    /// No other calls: without synchronization.
    Off,
    /// The numbered commits that it saw when it was captured: SCN-based synchronization.
    Scn,
    /// As with `Scn`, but for commits that touched none of the tables it speaks of: object-based synchronization.
    Object,
    /// Every call before it in the captured order, one after the other.
    Order,
    /// As with `Scn`, but a numbered commit waits for every call before it in the captured order: so when a call is answered,
    /// the numbered commits that are answered before it are just those that it saw.
    Fence,
}

impl Mode {
    /// The modes, in their order.
    pub const ALL: [Mode; 5] = [Mode::Off, Mode::Scn, Mode::Object, Mode::Order, Mode::Fence];
}

impl Word for Mode {
    ghost use Rattle.replay_history.specs.Mode.{mode_word, all_modes, modes_have_own_words};

    ghost word_of = { mode_word };

    ghost members_of = { all_modes };

    ghost own_words = { modes_have_own_words };

    fn members() -> &'static [Mode] {
        &Mode::ALL
    }

    // The mode's word in texts.
    fn word(self) -> &'static str {
        match self {
            Mode::Off => "off",
            Mode::Scn => "scn",
            Mode::Object => "object",
            Mode::Order => "order",
            Mode::Fence => "fence",
        }
    }
}
