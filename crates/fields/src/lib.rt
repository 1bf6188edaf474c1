// Bytes and numbers put at a place of a lent buffer; `Writer` puts fields there, one behind the other.
#![tactic(auto)]

pub mod writer;

ghost use Rattle.std.specs.Prelude.{◌≡◌, ◌+◌, ◌≤◌, length};
ghost use Rattle.terms.specs.Base.{number_bytes};
ghost use Rattle.fields.specs.Puts.{patched, Puts};

pub use writer::Writer;

// All of p into d from `at` on.
pub fn paste(d: &mut [u8], at: usize, p: &[u8])
    requires { at + length p.now ≤ length d.old }
    ensures { d.new ≡ patched at p.now d.old }
{
    d[at..at + p.len()].copy_from_slice(p);
}

// A number in so many bytes, high byte first: the place behind it.
pub fn put_number(out: &mut [u8], at: usize, width: usize, n: u32) -> usize
    requires { at + width ≤ length out.old }
    ensures { Puts out.old at width (number_bytes width n) out.new result }
{
    let mut m = n;
    for left in (0..width).rev() {
        out[at + left] = (m % 256) as u8;
        m /= 256;
    }
    at + width
}
