//! How effects are printed.
ghost use Rattle.std.specs.Prelude.{Some};
ghost use Rattle.app_text.specs.Effects.{effect_text};

use machine_replay::types::EffectKind;
use std::fmt;

/// An effect as it is printed.
#[derive(Clone, Copy)]
pub struct ShownEffect(pub EffectKind);

impl fmt::Display for ShownEffect {
    ghost output = { λ shown. Some (effect_text shown.0) };

    fn fmt<W: fmt::Write>(&self, f: &mut fmt::Formatter<W>) -> fmt::Result {
        match self.0 {
            EffectKind::Append => f.write_str("append"),
            EffectKind::Take => f.write_str("take"),
            EffectKind::Replace => f.write_str("replace"),
            EffectKind::Front => f.write_str("front"),
            EffectKind::Arrive => f.write_str("arrive"),
            EffectKind::Close => f.write_str("close"),
            EffectKind::SelfClose => f.write_str("self_close"),
        }
    }
}
