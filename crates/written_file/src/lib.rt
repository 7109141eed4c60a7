// A library of laws over the writer and the fitting file: what it proves is in specs/. The one function keeps the crate
// a crate. Its contract names what is proved of the list that `fitting_list::read_list` leaves, which `fit` calls: a
// file that the writer wrote reads back, and the small files.
#![tactic(auto)]

ghost use Rattle.fitting_list.specs.Cases.{ListCases};
ghost use Rattle.written_file.specs.List.{WrittenBackList};

pub fn zero() -> u8
    ensures written { WrittenBackList }
    ensures cases { ListCases }
{
    0
}
