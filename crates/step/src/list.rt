// Fillings listed in a lent array of flags, eight to a filling.
ghost use Rattle.std.specs.Prelude.{◌≡◌, ◌∷◌, [], ◌++◌, ◌+◌, ◌<◌, length};
ghost use Rattle.work.specs.Fillings.{most_fillings, list_size, flags_in, fillings_in};

pub const LIST: usize = 2048;

// Filling i.
pub(crate) fn flags_at(list: &[bool; LIST], i: usize) -> [bool; 8]
    requires { i < most_fillings }
    ensures { result ≡ flags_in list.now i }
{
    let mut all = [false; 8];
    all.copy_from_slice(&list[8 * i..8 * i + 8]);
    all
}

// Lists a filling after the first n.
pub(crate) fn put_flags(list: &mut [bool; LIST], n: usize, ticks: [bool; 8])
    requires { (length list.old ≡ list_size) × (n < most_fillings) }
    ensures { (length list.new ≡ list_size) × (fillings_in list.new (n + 1) ≡ fillings_in list.old n ++ (ticks ∷ [])) }
{
    list[8 * n..8 * n + 8].copy_from_slice(&ticks);
}
