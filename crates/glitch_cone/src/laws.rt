//! What a reader may want to know of the definitions. The law's body does nothing.
ghost use Rattle.std.specs.Prelude.{◌≡◌};
ghost use Rattle.circuit_types.specs.Probes.{most_probes, most_seen};
ghost use Rattle.glitch_cone.specs.declared.probing.TheConstants.{MOST_PROBES, MOST_SEEN};

/// The limits of the code are those of the definitions: at most 65,535 probes, which see at most 16,777,216 sources together.
pub fn limits()
    ensures probes { MOST_PROBES ≡ most_probes }
    ensures seen { MOST_SEEN ≡ most_seen }
{}
