// The line codes alone.
ghost use Rattle.std.specs.Prelude.{◌≡◌};
ghost use Rattle.line.specs.Codes.{code_of};
ghost use Rattle.line.specs.OneWord.{word_read};
ghost use Rattle.line.specs.declared.codes.Code.TheVariants.{Nrz, ThreeOfSix, Manchester};
ghost use Rattle.kusikhut.specs.Told.{told, shown, told_number};
ghost use Rattle.kusikhut.specs.Calls.{call_decode, call_encode};

#[unsafe(no_mangle)]
pub extern "C" fn kusikhut_decode_nrz(
    s: &[u8],
    k: usize,
    n: usize,
    d: &mut [u8],
    v: &mut [u64; 1],
) -> u8
    ensures { shown result v.new d.new ≡ call_decode Nrz s.now k n d.old }
{
    kusikhut::kusikhut_decode_nrz(s, k, n, d, v)
}

#[unsafe(no_mangle)]
pub extern "C" fn kusikhut_decode_three_of_six(
    s: &[u8],
    k: usize,
    n: usize,
    d: &mut [u8],
    v: &mut [u64; 1],
) -> u8
    ensures { shown result v.new d.new ≡ call_decode ThreeOfSix s.now k n d.old }
{
    kusikhut::kusikhut_decode_three_of_six(s, k, n, d, v)
}

#[unsafe(no_mangle)]
pub extern "C" fn kusikhut_decode_manchester(
    s: &[u8],
    k: usize,
    n: usize,
    d: &mut [u8],
    v: &mut [u64; 1],
) -> u8
    ensures { shown result v.new d.new ≡ call_decode Manchester s.now k n d.old }
{
    kusikhut::kusikhut_decode_manchester(s, k, n, d, v)
}

#[unsafe(no_mangle)]
pub extern "C" fn kusikhut_encode_nrz(s: &[u8], d: &mut [u8], v: &mut [u64; 1]) -> u8
    ensures { shown result v.new d.new ≡ call_encode Nrz s.now d.old }
{
    kusikhut::kusikhut_encode_nrz(s, d, v)
}

#[unsafe(no_mangle)]
pub extern "C" fn kusikhut_encode_three_of_six(s: &[u8], d: &mut [u8], v: &mut [u64; 1]) -> u8
    ensures { shown result v.new d.new ≡ call_encode ThreeOfSix s.now d.old }
{
    kusikhut::kusikhut_encode_three_of_six(s, d, v)
}

#[unsafe(no_mangle)]
pub extern "C" fn kusikhut_encode_manchester(s: &[u8], d: &mut [u8], v: &mut [u64; 1]) -> u8
    ensures { shown result v.new d.new ≡ call_encode Manchester s.now d.old }
{
    kusikhut::kusikhut_encode_manchester(s, d, v)
}

#[unsafe(no_mangle)]
pub extern "C" fn kusikhut_word_nrz(s: &[u8], k: usize, v: &mut [u64; 1]) -> u8
    ensures { told result v.new ≡ told_number (word_read (code_of Nrz) s.now k) }
{
    kusikhut::kusikhut_word_nrz(s, k, v)
}

#[unsafe(no_mangle)]
pub extern "C" fn kusikhut_word_three_of_six(s: &[u8], k: usize, v: &mut [u64; 1]) -> u8
    ensures { told result v.new ≡ told_number (word_read (code_of ThreeOfSix) s.now k) }
{
    kusikhut::kusikhut_word_three_of_six(s, k, v)
}

#[unsafe(no_mangle)]
pub extern "C" fn kusikhut_word_manchester(s: &[u8], k: usize, v: &mut [u64; 1]) -> u8
    ensures { told result v.new ≡ told_number (word_read (code_of Manchester) s.now k) }
{
    kusikhut::kusikhut_word_manchester(s, k, v)
}
