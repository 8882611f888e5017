// The ring in which steps go: the numbers modulo a prime power below 65,536.
ghost use Rattle.std.specs.Prelude.{◌≡◌, ℕ, ◌^◌, ◌<◌};
ghost use Rattle.residue.specs.Units.{Prime};
ghost use Rattle.steps.specs.Fit.{Fit};

// p, e, q = p^e, and q's `residue::scale`. What the steps need of them is true of every ring.
#[derive(Clone, Copy)]
pub struct Ring {
    pub p: u32,
    pub e: usize,
    pub q: u32,
    pub scale: u64,
    pub ghost fit: { Fit p e q scale },
}

impl Ring {
    pub fn new(p: u32, e: usize, q: u32) -> Ring
        requires { Prime p × (0 < e) × (q ≡ p ^ e) × (q < 65536) }
        ensures { (result.p ≡ p) × (result.e ≡ e) × (result.q ≡ q) }
    {
        Ring {
            p,
            e,
            q,
            scale: residue::scale(q),
        }
    }
}
