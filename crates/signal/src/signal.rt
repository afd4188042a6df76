// A satellite's signal as one number: constellation, svid and band are its digits.
ghost use Rattle.std.specs.Prelude.{◌≡◌, ◌<◌, ◌^◌};
ghost use Rattle.signal.specs.Signal as spec;

// The signal of a constellation, an svid and a band.
pub fn signal_of(constellation: u8, svid: u16, band: u32) -> u64
    ensures { result ≡ spec.signal constellation svid band }
{
    ((constellation as u64) * 0x1_0000 + (svid as u64)) * 0x1_0000_0000 + (band as u64)
}

// The constellation of a signal.
pub fn constellation_in(signal: u64) -> u8
    requires { signal < 2 ^ 56 }
    ensures { result ≡ spec.constellation_in signal }
{
    (signal / 0x1_0000_0000_0000) as u8
}

// Its svid.
pub fn svid_in(signal: u64) -> u16
    ensures { result ≡ spec.svid_in signal }
{
    (signal / 0x1_0000_0000 % 0x1_0000) as u16
}

// Its band.
pub fn band_in(signal: u64) -> u32
    ensures { result ≡ spec.band_in signal }
{
    (signal % 0x1_0000_0000) as u32
}
