//! Reads rules from the left, behind their `rule`.
ghost use Rattle.std.specs.Prelude.{◌≡◌, [], ◌∷◌, ◌++◌, IfOk, Some, None};
ghost use Rattle.lp_parser.specs.inside.TermMachine.{step, settled_at, closing, infixed, at_test};
ghost use Rattle.lp_parser.specs.inside.RuleMachine.{to, with_head, with_pair, with_test, with_body, whole, over_test, alone, behind_tests, behind_pairs, behind_heads, head_begins, rule_start, divided, behind_kept, behind_removed, behind_head, head_ends, context_ends, ends_head, in_head, pair_left, pair_tilde, pair_right, paired, tested, ends_test, in_test, ends_body, in_body, rule_move_at, rule_move};

use crate::ast::{AstTerm, Operator, Place, Rule, RuleHead, Word, WordKind, WordPair};
use crate::item_state::{Moved, RulePlace, RuleState, Side};
use crate::lexeme::{Closer, Lexeme, Mark};
use crate::stack::Stack;
use crate::state::{Frame, Front, Latest, State};
use crate::term::close_with;
use std::alloc::{AllocError, Global};

/// Where a lexeme leads in a rule, if one goes on so.
type RuleMoved = Option<Moved<RuleState, Rule>>;

/// To a place in the rule.
fn to(rule: Rule, at: RulePlace) -> RuleMoved
    ensures { result ≡ to rule at }
{
    Some(Moved::To(RuleState { rule, at }))
}

impl State {
    /// The term that was read, where it may end here.
    pub fn into_whole(self, alloc: Global) -> Result<Option<AstTerm>, AllocError>
        ensures { IfOk result (λ term. term ≡ whole (settled_at self)) }
    {
        match self.into_settled(alloc)? {
            Some((term, mut frames)) => match frames.pop() {
                Some(_) => Ok(None),
                None => Ok(Some(term)),
            },
            None => Ok(None),
        }
    }
}

/// Behind the tests, or where they may begin.
fn behind_tests(alloc: Global, rule: Rule, lexeme: Lexeme) -> RuleMoved
    ensures { result ≡ behind_tests rule lexeme }
{
    match lexeme {
        Lexeme::Mark(Mark::Equivalent, _) => to(
            rule,
            RulePlace::Body(State::Want(Stack::new(alloc))),
        ),
        Lexeme::Mark(Mark::Dot, _) => Some(Moved::Done(rule)),
        _ => None,
    }
}

/// A test begins.
fn test_begins(alloc: Global, rule: Rule) -> Result<RuleMoved, AllocError>
    ensures { IfOk result (λ it. it ≡ to rule (RulePlace.Test (State.Want (Frame.Test ∷ [])))) }
{
    let mut frames = Stack::new(alloc);
    frames.push(Frame::Test)?;
    Ok(to(rule, RulePlace::Test(State::Want(frames))))
}

/// Behind the pairs, or where they may begin.
fn behind_pairs(alloc: Global, rule: Rule, lexeme: Lexeme) -> Result<RuleMoved, AllocError>
    ensures { IfOk result (λ it. it ≡ behind_pairs rule lexeme) }
{
    match lexeme {
        Lexeme::Closer(Closer::Bar, _) => test_begins(alloc, rule),
        lexeme => Ok(behind_tests(alloc, rule, lexeme)),
    }
}

/// Behind the heads.
fn behind_heads(alloc: Global, rule: Rule, lexeme: Lexeme) -> Result<RuleMoved, AllocError>
    ensures { IfOk result (λ it. it ≡ behind_heads rule lexeme) }
{
    match lexeme {
        Lexeme::Mark(Mark::Greater, _) => Ok(to(rule, RulePlace::PairLeft)),
        lexeme => behind_pairs(alloc, rule, lexeme),
    }
}

/// A head on this side begins.
fn head_begins(alloc: Global, rule: Rule, side: Side) -> RuleMoved
    ensures { result ≡ head_begins rule side }
{
    to(
        rule,
        RulePlace::Head(side, None, State::Want(Stack::new(alloc))),
    )
}

/// Behind `rule`.
fn rule_start(alloc: Global, rule: Rule, lexeme: Lexeme) -> RuleMoved
    ensures { result ≡ rule_start rule lexeme }
{
    match lexeme {
        Lexeme::OpenRound(_) => head_begins(alloc, rule, Side::Kept),
        Lexeme::Lambda(_) => to(rule, RulePlace::Divided),
        _ => None,
    }
}

/// Behind the `\` between the heads.
fn divided(alloc: Global, rule: Rule, lexeme: Lexeme) -> RuleMoved
    ensures { result ≡ divided rule lexeme }
{
    match lexeme {
        Lexeme::OpenRound(_) => head_begins(alloc, rule, Side::Removed),
        _ => None,
    }
}

/// Behind a kept head.
fn behind_kept(alloc: Global, rule: Rule, lexeme: Lexeme) -> Result<RuleMoved, AllocError>
    ensures { IfOk result (λ it. it ≡ behind_kept rule lexeme) }
{
    match lexeme {
        Lexeme::OpenRound(_) => Ok(head_begins(alloc, rule, Side::Kept)),
        Lexeme::Lambda(_) => Ok(to(rule, RulePlace::Divided)),
        lexeme => behind_heads(alloc, rule, lexeme),
    }
}

/// Behind a removed head.
fn behind_removed(alloc: Global, rule: Rule, lexeme: Lexeme) -> Result<RuleMoved, AllocError>
    ensures { IfOk result (λ it. it ≡ behind_removed rule lexeme) }
{
    match lexeme {
        Lexeme::OpenRound(_) => Ok(head_begins(alloc, rule, Side::Removed)),
        lexeme => behind_heads(alloc, rule, lexeme),
    }
}

/// Behind a head.
fn behind_head(
    alloc: Global,
    rule: Rule,
    side: Side,
    lexeme: Lexeme,
) -> Result<RuleMoved, AllocError>
    ensures { IfOk result (λ it. it ≡ behind_head rule side lexeme) }
{
    match side {
        Side::Kept => behind_kept(alloc, rule, lexeme),
        Side::Removed => behind_removed(alloc, rule, lexeme),
    }
}

/// The rule with one head more.
fn with_head(mut rule: Rule, side: Side, head: RuleHead) -> Result<Rule, AllocError>
    ensures { IfOk result (λ it. it ≡ with_head rule side head) }
{
    match side {
        Side::Kept => rule.kept.push(head)?,
        Side::Removed => rule.removed.push(head)?,
    }
    Ok(rule)
}

/// Behind the `)` of a head with this goal.
fn head_ends(
    rule: Rule,
    side: Side,
    context: Option<Word>,
    goal: AstTerm,
) -> Result<RuleMoved, AllocError>
    ensures { IfOk result (λ it. it ≡ head_ends rule side context (Some goal)) }
{
    let rule = with_head(rule, side, RuleHead { context, goal })?;
    Ok(to(rule, RulePlace::Heads(side)))
}

/// Behind a `)` in a head, at this place.
fn round_in_head(
    alloc: Global,
    rule: Rule,
    side: Side,
    context: Option<Word>,
    state: State,
    place: Place,
) -> Result<RuleMoved, AllocError>
    ensures { IfOk result (λ it. it ≡ in_head rule side context (closing state Closer.Round) (Lexeme.Closer Closer.Round place) state) }
{
    let Some((term, frames)) = state.into_settled(alloc)? else {
        return Ok(None);
    };
    if frames.is_empty() {
        return head_ends(rule, side, context, term);
    }
    match close_with(alloc, Closer::Round, term, frames)? {
        Some(state) => Ok(to(rule, RulePlace::Head(side, context, state))),
        None => Ok(None),
    }
}

/// The variable, where this atom is one and no frame is around it.
fn lone_variable(latest: Latest, mut frames: Stack<Frame>) -> Option<Word>
    ensures { result ≡ alone (State.Have Front.Nothing latest frames) }
{
    match latest {
        Latest::Word(WordKind::Var, text, place) => match frames.pop() {
            None => Some(Word { text, place }),
            Some(_) => None,
        },
        _ => None,
    }
}

/// The variable alone that was read, behind which a context may end.
fn alone(state: State) -> Option<Word>
    ensures { result ≡ alone state }
{
    match state {
        State::Have(front, latest, frames) => match front {
            Front::Nothing => lone_variable(latest, frames),
            Front::Applied(_, _) | Front::Quantifier(_, _) => None,
        },
        State::Want(_) | State::Quantifier(_, _, _) | State::Words(_, _, _, _, _) => None,
    }
}

/// Behind a `?-` in a head.
fn turnstile_in_head(
    alloc: Global,
    rule: Rule,
    side: Side,
    context: Option<Word>,
    state: State,
) -> RuleMoved
    ensures { result ≡ context_ends rule side context (alone state) }
{
    match context {
        Some(_) => None,
        None => match alone(state) {
            Some(word) => to(
                rule,
                RulePlace::Head(side, Some(word), State::Want(Stack::new(alloc))),
            ),
            None => None,
        },
    }
}

/// In a head.
fn in_head(
    alloc: Global,
    rule: Rule,
    side: Side,
    context: Option<Word>,
    state: State,
    lexeme: Lexeme,
) -> Result<RuleMoved, AllocError>
    ensures { IfOk result (λ it. it ≡ in_head rule side context (step state lexeme) lexeme state) }
{
    match lexeme {
        Lexeme::Closer(Closer::Round, place) => round_in_head(
            alloc, rule, side, context, state, place,
        ),
        Lexeme::Mark(Mark::Turnstile, _) => Ok(turnstile_in_head(
            alloc, rule, side, context, state,
        )),
        lexeme => match state.step(alloc, lexeme)? {
            Some(state) => Ok(to(rule, RulePlace::Head(side, context, state))),
            None => Ok(None),
        },
    }
}

/// The left variable of a pair.
fn pair_left(rule: Rule, lexeme: Lexeme) -> RuleMoved
    ensures { result ≡ pair_left rule lexeme }
{
    match lexeme {
        Lexeme::Word(WordKind::Var, text, place) => to(
            rule,
            RulePlace::Tilde(Word { text, place }),
        ),
        _ => None,
    }
}

/// The `~` of a pair.
fn pair_tilde(rule: Rule, left: Word, lexeme: Lexeme) -> RuleMoved
    ensures { result ≡ pair_tilde rule left lexeme }
{
    match lexeme {
        Lexeme::Mark(Mark::Tilde, _) => to(rule, RulePlace::PairRight(left)),
        _ => None,
    }
}

/// The right variable of a pair.
fn pair_right(mut rule: Rule, left: Word, lexeme: Lexeme) -> Result<RuleMoved, AllocError>
    ensures { IfOk result (λ it. it ≡ pair_right rule left lexeme) }
{
    match lexeme {
        Lexeme::Word(WordKind::Var, text, place) => {
            let right = Word { text, place };
            rule.pairs.push(WordPair { left, right })?;
            Ok(to(rule, RulePlace::Paired))
        }
        _ => Ok(None),
    }
}

/// Behind a pair.
fn paired(alloc: Global, rule: Rule, lexeme: Lexeme) -> Result<RuleMoved, AllocError>
    ensures { IfOk result (λ it. it ≡ paired rule lexeme) }
{
    match lexeme {
        Lexeme::Infix(Operator::Comma, _) => Ok(to(rule, RulePlace::PairLeft)),
        lexeme => behind_pairs(alloc, rule, lexeme),
    }
}

/// The test that was read, where all its brackets are closed.
fn over_test(alloc: Global, state: State) -> Result<Option<AstTerm>, AllocError>
    ensures { IfOk result (λ it. it ≡ over_test state) }
{
    if !is_at_test(&state) {
        return Ok(None);
    }
    match state.into_settled(alloc)? {
        Some((term, _)) => Ok(Some(term)),
        None => Ok(None),
    }
}

/// Behind a `.` or a `<=>` in a test.
fn test_ends(
    alloc: Global,
    mut rule: Rule,
    state: State,
    lexeme: Lexeme,
) -> Result<RuleMoved, AllocError>
    ensures { IfOk result (λ it. it ≡ ends_test rule (over_test state) lexeme) }
{
    match over_test(alloc, state)? {
        Some(test) => {
            rule.tests.push(test)?;
            tested(alloc, rule, lexeme)
        }
        None => Ok(None),
    }
}

/// Behind a test.
fn tested(alloc: Global, rule: Rule, lexeme: Lexeme) -> Result<RuleMoved, AllocError>
    ensures { IfOk result (λ it. it ≡ tested rule lexeme) }
{
    match lexeme {
        Lexeme::Infix(Operator::Comma, _) => test_begins(alloc, rule),
        lexeme => Ok(behind_tests(alloc, rule, lexeme)),
    }
}

/// Whether the state is directly in a test.
fn is_at_test(state: &State) -> bool
    ensures { result ≡ at_test state.now }
{
    match state {
        State::Want(frames)
        | State::Quantifier(_, _, frames)
        | State::Have(_, _, frames)
        | State::Words(_, _, _, _, frames) => match frames.last() {
            Some(Frame::Test) => true,
            _ => false,
        },
    }
}

/// A comma at this place in a test.
fn comma_in_test(
    alloc: Global,
    rule: Rule,
    state: State,
    place: Place,
) -> Result<RuleMoved, AllocError>
    ensures { IfOk result (λ it. it ≡ in_test rule (infixed state Operator.Comma place) (Lexeme.Infix Operator.Comma place) state) }
{
    let comma = Lexeme::Infix(Operator::Comma, place);
    if is_at_test(&state) {
        return test_ends(alloc, rule, state, comma);
    }
    match state.step(alloc, comma)? {
        Some(state) => Ok(to(rule, RulePlace::Test(state))),
        None => Ok(None),
    }
}

/// In a test.
fn in_test(alloc: Global, rule: Rule, state: State, lexeme: Lexeme) -> Result<RuleMoved, AllocError>
    ensures { IfOk result (λ it. it ≡ in_test rule (step state lexeme) lexeme state) }
{
    match lexeme {
        Lexeme::Infix(Operator::Comma, place) => comma_in_test(alloc, rule, state, place),
        Lexeme::Mark(mark, place) => test_ends(alloc, rule, state, Lexeme::Mark(mark, place)),
        lexeme => match state.step(alloc, lexeme)? {
            Some(state) => Ok(to(rule, RulePlace::Test(state))),
            None => Ok(None),
        },
    }
}

/// In the body.
fn in_body(
    alloc: Global,
    mut rule: Rule,
    state: State,
    lexeme: Lexeme,
) -> Result<RuleMoved, AllocError>
    ensures { IfOk result (λ it. it ≡ in_body rule (step state lexeme) lexeme state) }
{
    match lexeme {
        Lexeme::Mark(Mark::Dot, _) => match state.into_whole(alloc)? {
            Some(body) => {
                rule.body = Some(body);
                Ok(Some(Moved::Done(rule)))
            }
            None => Ok(None),
        },
        lexeme => match state.step(alloc, lexeme)? {
            Some(state) => Ok(to(rule, RulePlace::Body(state))),
            None => Ok(None),
        },
    }
}

impl RuleState {
    /// Where the lexeme leads, if a rule goes on so.
    pub fn step(self, alloc: Global, lexeme: Lexeme) -> Result<RuleMoved, AllocError>
        ensures { IfOk result (λ it. it ≡ rule_move self lexeme) }
    {
        let RuleState { rule, at } = self;
        match at {
            RulePlace::Start => Ok(rule_start(alloc, rule, lexeme)),
            RulePlace::Divided => Ok(divided(alloc, rule, lexeme)),
            RulePlace::Heads(side) => behind_head(alloc, rule, side, lexeme),
            RulePlace::Head(side, context, state) => in_head(
                alloc, rule, side, context, state, lexeme,
            ),
            RulePlace::PairLeft => Ok(pair_left(rule, lexeme)),
            RulePlace::Tilde(left) => Ok(pair_tilde(rule, left, lexeme)),
            RulePlace::PairRight(left) => pair_right(rule, left, lexeme),
            RulePlace::Paired => paired(alloc, rule, lexeme),
            RulePlace::Test(state) => in_test(alloc, rule, state, lexeme),
            RulePlace::Body(state) => in_body(alloc, rule, state, lexeme),
        }
    }
}
