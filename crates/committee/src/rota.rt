// Who leads each view.
ghost use Rattle.std.specs.Prelude.{◌≡◌, ℕ, ◌<◌};

// A rota means a number of processes and one leader among them for each view. Asking changes nothing.
pub trait Rota {
    ghost size: { Self → ℕ };

    ghost leader: { Self → ℕ → ℕ };

    fn size(&self) -> u8
        ensures { result ≡ size self.now };

    fn leader(&self, view: u32) -> u8
        ensures { result ≡ leader self.now view };

    ghost inside: { (r : Self) (v : ℕ) → leader r v < size r };
}
