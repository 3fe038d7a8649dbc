ghost use Rattle.std.specs.Prelude.{◌≡◌};
ghost use Rattle.tdl_body.specs.Values.{Look, read};

use tdl_base::Place;

/// What expressions read, wherever its numbers stand.
pub trait Reader {
    /// What it shows.
    ghost look: { Self → Look };

    /// The number at a place; 0 where it is not there.
    fn read(&self, place: &Place) -> i64
        ensures { result ≡ read place.now (look self.now) };
}
