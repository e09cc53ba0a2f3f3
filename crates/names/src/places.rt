// The place of a name among those held.
ghost use Rattle.std.specs.Prelude.{◌≡◌};
ghost use Rattle.names.specs.Place.{found};

// The place of a packed name among those held.
pub fn find(names: &[u64], name: u64) -> Option<usize>
    ensures { result ≡ found name names.now }
{
    names.iter().position(|&held| held == name)
}
