// The references of a block as samples: the corner, and two rows of 65 entries that the calls pass by value.
// Rests on the standard's neighbours.
ghost use Rattle.std.specs.Prelude.{◌≡◌};
ghost use Rattle.domain.specs.rows.Neighbours.{level_rows};

#[derive(Clone, Copy, Debug, PartialEq, Eq)]
pub struct Rows {
    pub corner: u16,
    pub above: [u16; 65],
    pub left: [u16; 65],
}

// Rows whose samples are all one: neutral where no neighbour is there.
pub fn level_rows(v: u16) -> Rows
    ensures { result ≡ level_rows v }
{
    Rows {
        corner: v,
        above: [v; 65],
        left: [v; 65],
    }
}
