//! The answers of a line, as its bytes come.

ghost use Rattle.std.specs.Prelude.{◌≡◌, ◌≤◌, [], length, drop, OnOk};
ghost use Rattle.http_answers.specs.Answers.{Begins};
ghost use Rattle.remote_link.specs.Inside.{AnswerCame, BodyCame, Came, HeadCame, LosesNothing};

use crate::link_err::LinkErr;
use desk_files::Source;
use http_answers::{Answer, Front, front_of};
use std::alloc::Global;
use std::marker::Model;

/// How many bytes are asked for at a time.
const READ_LIMIT: usize = 8192;

/// The bytes of a line that came and were not taken yet. Contracts see these bytes.
#[derive(Drop)]
pub(crate) struct Inbox {
    held: Vec<u8>,
}

impl Model for Inbox {
    ghost use Rattle.std.specs.Prelude.{ℕ, List};

    ghost Value = { List ℕ };

    ghost view = { λ a. a.held.items };
}

impl Inbox {
    /// Nothing came yet.
    pub(crate) fn new(alloc: Global) -> Inbox
        ensures { result ≡ [] }
    {
        Inbox {
            held: Vec::new(alloc),
        }
    }

    /// The bytes.
    pub(crate) fn bytes(&self) -> &[u8]
        ensures { result.now ≡ self.now }
    {
        self.held.as_slice()
    }

    /// Takes the first of them.
    pub(crate) fn take(&mut self, n: usize)
        requires { n ≤ length self.old }
        ensures { self.new ≡ drop n self.old }
    {
        drop(self.held.drain(..n));
    }

    /// Reads until a whole answer is held. `Failed` where the input fails or ends before, or what came is the front of none.
    #[tactic(auto, using(crate::proofs::Keeping::loses_trans, crate::proofs::Keeping::stops_later))]
    pub(crate) fn next_answer<I: Source>(&mut self, input: &mut I) -> Result<Answer, LinkErr>
        ensures kept { LosesNothing self.old (I.account input.old).content self.new (I.account input.new).content }
        ensures counts { (I.account input.old).faults ≤ (I.account input.new).faults }
        ensures came { AnswerCame result self.new (I.account input.old).content (I.account input.new).content (I.account input.old).faults (I.account input.new).faults }
    {
        let answer = self.read_head(input)?;
        self.read_body(input, &answer)?;
        Ok(answer)
    }

    // Reads until the head of an answer begins what is held.
    #[tactic(auto, using(crate::proofs::Keeping::loses_refl, crate::proofs::Keeping::loses_trans, crate::proofs::Keeping::came_stops, crate::proofs::Keeping::ended_hopeless))]
    fn read_head<I: Source>(&mut self, input: &mut I) -> Result<Answer, LinkErr>
        ensures kept { LosesNothing self.old (I.account input.old).content self.new (I.account input.new).content }
        ensures counts { (I.account input.old).faults ≤ (I.account input.new).faults }
        ensures same { OnOk result ((I.account input.new).faults ≡ (I.account input.old).faults) }
        ensures came { HeadCame result self.new (I.account input.old).content (I.account input.new).content (I.account input.old).faults (I.account input.new).faults }
    {
        loop {
            match front_of(self.bytes()) {
                Front::Begun(answer) => return Ok(answer),
                Front::Other => return Err(LinkErr::Failed),
                Front::Short => {}
            }
            if self.read_more(input)? == 0 {
                return Err(LinkErr::Failed);
            }
        }
    }

    // Reads until all of the answer is held whose head begins it.
    #[tactic(auto, using(crate::proofs::Keeping::loses_refl, crate::proofs::Keeping::loses_trans, crate::proofs::Keeping::begins_later, crate::proofs::Keeping::came_stops, crate::proofs::Keeping::ended_hopeless, http_answers::proofs::Fronts::short_unfinished))]
    fn read_body<I: Source>(&mut self, input: &mut I, answer: &Answer) -> Result<(), LinkErr>
        requires begins { Begins self.old answer.now }
        ensures kept { LosesNothing self.old (I.account input.old).content self.new (I.account input.new).content }
        ensures counts { (I.account input.old).faults ≤ (I.account input.new).faults }
        ensures came { BodyCame result answer.now self.new (I.account input.old).content (I.account input.new).content (I.account input.old).faults (I.account input.new).faults }
    {
        while !answer.is_whole(self.bytes()) {
            if self.read_more(input)? == 0 {
                return Err(LinkErr::Failed);
            }
        }
        Ok(())
    }

    // Reads bytes behind those that are held, and says how many. The room for them is taken first.
    #[tactic(auto, using(crate::proofs::Keeping::read_keeps, crate::proofs::Keeping::came_so))]
    fn read_more<I: Source>(&mut self, input: &mut I) -> Result<usize, LinkErr>
        ensures kept { LosesNothing self.old (I.account input.old).content self.new (I.account input.new).content }
        ensures counts { (I.account input.old).faults ≤ (I.account input.new).faults }
        ensures same { OnOk result ((I.account input.new).faults ≡ (I.account input.old).faults) }
        ensures came { Came result self.old self.new (I.account input.old).content (I.account input.new).content (I.account input.old).faults (I.account input.new).faults }
    {
        let mut chunk = [0; READ_LIMIT];
        if self.held.reserve(READ_LIMIT).is_err() {
            return Err(LinkErr::Memory);
        }
        let Ok(n) = input.read(&mut chunk) else {
            return Err(LinkErr::Failed);
        };
        if self.held.extend_from_slice(&chunk[..n]).is_err() {
            return Err(LinkErr::Memory);
        }
        Ok(n)
    }
}
