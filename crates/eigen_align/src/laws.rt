//! What holds of joint names. The function does nothing: its contract is the law.

ghost use Rattle.eigen_align.specs.Sequents.{AlignmentIsBare};

/// Joint names hang on names and terms alone: not on numbers, assumptions and keys.
pub fn law_alignment()
    ensures { AlignmentIsBare }
{}
