// What a byte is to the reader.
ghost use Rattle.std.specs.Prelude.{◌≡◌};
ghost use Rattle.dimacs.specs.Bytes.{class_of};
ghost use Rattle.text.specs.Steady.{Decimal};

use dimacs::Class;

// The class of a byte; a digit's value is below ten.
pub fn class_of(byte: u8) -> Class
    ensures class { result ≡ class_of byte }
    ensures digit { Decimal result }
{
    Class::from(byte)
}
