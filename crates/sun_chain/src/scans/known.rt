//! The IDs of the SunSpec models for which the program has a table of points.
ghost use Rattle.std.specs.Prelude.{◌≡◌};
ghost use Rattle.sun_chain.specs.Scanning.Stages.{is_known};

/// Returns whether the program has a table of points for models with the given ID.
pub(crate) fn is_known(id: u16) -> bool
    ensures { result ≡ is_known id }
{
    id == 1 || (101 <= id && id <= 103) || (201 <= id && id <= 204)
}
