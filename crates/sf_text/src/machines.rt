//! Texts that are cut at separators and read part by part, from one state to the next.

ghost use Rattle.std.specs.Prelude.{◌≡◌, ◌≤◌, ◌<◌, ◌+◌, ◌∷◌, [], ℕ, Bool, List, length, IfSome, MatchOption, position, option_copied};
ghost use Rattle.std.specs.List.{slice_split};
ghost use Rattle.sf_grammar.specs.Parts.{Machine, accepts, reach_of};

/// How far a text reaches into a language, and whether it is one of its texts.
#[derive(Clone, Copy)]
pub struct Reach {
    pub length: usize,
    pub whole: bool,
}

/// How far a part reaches, whether it may be the last, and in which state the text goes on behind it, if it may.
#[derive(Clone, Copy)]
pub struct Part<S> {
    pub reach: usize,
    pub last: bool,
    pub next: Option<S>,
}

/// The states of a machine, and how far a part reaches in each.
pub trait State: Copy {
    ghost machine: { Machine Self };

    ghost separates: { ℕ → Bool };

    ghost reach: { Self → List ℕ → ℕ };

    fn is_separator(byte: u8) -> bool
        ensures { result ≡ separates byte };

    fn part(self, text: &[u8]) -> Part<Self>
    where
        Self: Sized,
        ensures last { result.last ≡ machine.last self text.now }
        ensures next { result.next ≡ machine.next self text.now }
        ensures reach { result.reach ≡ reach self text.now }
        ensures within { result.reach ≤ length text.now };
}

/// How far a text reaches that is read from a state on, and whether it can be read so.
pub fn reach_of<S: State>(state: S, text: &[u8]) -> Reach
    ensures length { result.length ≡ reach_of S.machine S.separates S.reach state text.now }
    ensures whole { result.whole ≡ accepts S.machine S.separates state text.now }
    ensures within { result.length ≤ length text.now }
{
    let mut state = state;
    let mut left = text;
    let mut done = 0;
    loop {
        let (part, others) = next_cut::<S>(left);
        let here = state.part(part);
        let Some(rest) = others else {
            return Reach {
                length: done + here.reach,
                whole: here.last,
            };
        };
        let Some(after) = here.next else {
            return Reach {
                length: done + here.reach,
                whole: false,
            };
        };
        done += part.len() + 1;
        left = rest;
        state = after;
    }
}

/// The text before the first separator, and the text behind it, if there is one.
#[tactic(auto, using(crate::proofs::Cuts::cut_rules))]
fn next_cut<S: State>(text: &[u8]) -> (&[u8], Option<&[u8]>)
    ensures cut { MatchOption result.1
        (slice_split S.separates text.now ≡ result.0.now ∷ [])
        (λ rest. slice_split S.separates text.now ≡ result.0.now ∷ slice_split S.separates rest.now) }
    ensures length { MatchOption result.1
        (length result.0.now ≡ length text.now)
        (λ rest. length result.0.now + 1 + length rest.now ≡ length text.now) }
{
    match find_separator::<S>(text) {
        None => (text, None),
        Some(end) => {
            let (part, _) = text.split_at(end);
            let (_, rest) = text.split_at(end + 1);
            (part, Some(rest))
        }
    }
}

fn find_separator<S: State>(text: &[u8]) -> Option<usize>
    ensures { result ≡ position S.separates text.now }
{
    text.iter().position(|byte| S::is_separator(*byte))
}
