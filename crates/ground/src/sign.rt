// A signed number's sign and magnitude. All arithmetic on vectors works on magnitudes.
ghost use Rattle.std.specs.Prelude.{◌≡◌, ◌<◌, nat_abs};
ghost use Rattle.ground.specs.Sign.{signed, below};

pub fn negative(c: i16) -> bool
    ensures { result ≡ below c }
{
    c < 0
}

pub fn magnitude(c: i16) -> u32
    ensures { result ≡ nat_abs c }
{
    c.unsigned_abs() as u32
}

pub fn with_sign(minus: bool, m: u32) -> i16
    requires { m < 32768 }
    ensures { result ≡ signed minus m }
{
    if minus { -(m as i16) } else { m as i16 }
}
