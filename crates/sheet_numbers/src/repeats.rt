// The least repeats for 1 to 128 rounds (document 000, table 1).
ghost use Rattle.std.specs.Prelude.{◌≡◌, ◌≤◌};
ghost use Rattle.sheet_numbers.specs.Bounds.{least};

const LEAST: [u64; 128] = [
    1, 3, 5, 6, 8, 10, 11, 13, 15, 17, 18, 20, 22, 23, 25, 27, 29, 30, 32, 34, 35, 37, 39, 41, 42,
    44, 46, 47, 49, 51, 52, 54, 56, 58, 59, 61, 63, 64, 66, 68, 70, 71, 73, 75, 76, 78, 80, 82, 83,
    85, 87, 88, 90, 92, 94, 95, 97, 99, 100, 102, 104, 105, 107, 109, 111, 112, 114, 116, 117, 119,
    121, 123, 124, 126, 128, 129, 131, 133, 135, 136, 138, 140, 141, 143, 145, 147, 148, 150, 152,
    153, 155, 157, 158, 160, 162, 164, 165, 167, 169, 170, 172, 174, 176, 177, 179, 181, 182, 184,
    186, 188, 189, 191, 193, 194, 196, 198, 200, 201, 203, 205, 206, 208, 210, 211, 213, 215, 217,
    218,
];

// The largest m with 3^m ≤ 2^(rounds + m).
pub fn least_repeats(rounds: u64) -> u64
    requires { (1 ≤ rounds) × (rounds ≤ 128) }
    ensures { result ≡ least rounds }
{
    let at = (rounds - 1) as usize;
    LEAST[at]
}
