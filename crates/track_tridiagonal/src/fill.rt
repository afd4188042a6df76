// One pattern at each place of a part of lent memory.
ghost use Rattle.std.specs.Prelude.{◌≤◌, length};
ghost use Rattle.track_tridiagonal.specs.Steps.{Filled};

// Puts v at each place from lo up to hi.
pub fn fill(w: &mut [u64], lo: usize, hi: usize, v: u64)
    requires { (lo ≤ hi) × (hi ≤ length w.old) }
    ensures { Filled lo hi v w.old w.new }
{
    w[lo..hi].fill(v);
}
