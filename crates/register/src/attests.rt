// What the count of distinct processes asks of a record.
ghost use Rattle.std.specs.Prelude.{◌≡◌, ℕ, Bool};

// A record that is of one process, and that counts for a query or not.
pub trait Attests<Q> {
    ghost process: { Self → ℕ };

    ghost counts: { Self → Q → Bool };

    fn process(&self) -> u8
        ensures { result ≡ process self.now };

    fn counts(&self, query: &Q) -> bool
        ensures { result ≡ counts self.now query.now };
}
