//! The next place at which tags begin or end.

ghost use Rattle.std.specs.Prelude.{◌≡◌, ◌<◌, ◌+◌, ◌^◌};
ghost use Rattle.search_dump.specs.Turns.{rows_at};

/// Rows of the table of tags, from one to before another.
#[derive(Clone, Copy)]
pub struct Rows {
    pub first: usize,
    pub end: usize,
}

/// A place at which tags begin or end, with rows of the table among which all these tags stand.
#[derive(Clone, Copy)]
pub struct Turn {
    pub place: usize,
    pub rows: Rows,
}

impl Turn {
    /// A place with no rows.
    pub fn bare(place: usize) -> Turn
        ensures { result ≡ record { place = place; rows = record { first = 0; end = 0 } } }
    {
        Turn {
            place,
            rows: Rows { first: 0, end: 0 },
        }
    }

    /// Its rows where it stands at a place, and else none.
    pub fn rows_at(self, place: usize) -> Rows
        ensures { result ≡ rows_at self place }
    {
        if self.place == place {
            return self.rows;
        }
        Rows { first: 0, end: 0 }
    }

    /// The first of this turn and of a place at which the tag of one row more begins or ends, which stands behind the
    /// rows of this turn: with that row, if it is the place.
    pub fn with_row(self, row: usize, place: usize) -> Turn
        requires { row + 1 < 2 ^ 64 }
        ensures earlier { place < self.place → result ≡ record {
          place = place;
          rows = record { first = row; end = row + 1 };
        } }
        ensures there { place ≡ self.place → result ≡ record {
          place = place;
          rows = record { first = self.rows.first; end = row + 1 };
        } }
        ensures later { self.place < place → result ≡ self }
    {
        if self.place < place {
            return self;
        }
        if place < self.place {
            return Turn {
                place,
                rows: Rows {
                    first: row,
                    end: row + 1,
                },
            };
        }
        Turn {
            place,
            rows: Rows {
                first: self.rows.first,
                end: row + 1,
            },
        }
    }
}
