//! Laws of the machines. Each function does nothing: its clauses are the laws.
ghost use Rattle.device_spec.specs.PicLaws.{SameLevelsAgain};
ghost use Rattle.device_spec.specs.PitLaws.{PulsesAddUp};
ghost use Rattle.device_spec.specs.PortLaws.{PortsApart, ConfigApart};
ghost use Rattle.device_spec.specs.RoutingLaws.{ReservedLinesRest};

// The ports

/// No two devices take the same access, and none one at the ports of configuration data.
#[tactic(auto, using(crate::proofs::PortLaws::ports_apart, crate::proofs::PortLaws::config_apart))]
pub fn ports_are_apart()
    ensures devices { PortsApart }
    ensures config { ConfigApart }
{}

// The machines

/// No pin reaches the lines 0, 1, 2, 8 and 13, whatever the registers hold.
#[tactic(auto, using(crate::proofs::RoutingLaws::reserved))]
pub fn reserved_lines_rest()
    ensures { ReservedLinesRest }
{}

/// The same levels again change nothing of the pair.
pub fn same_levels_again()
    ensures { SameLevelsAgain }
{}

/// `n + m` pulses are `n` and then `m` pulses, and their rises add up.
pub fn pulses_add_up()
    ensures sum { PulsesAddUp }
{}
