// A flag is met: it was found before, or it is new and there is room for it, or there is none.
ghost use Rattle.std.specs.Prelude.{◌≡◌, ◌+◌, ◌*◌, ◌≤◌, ◌<◌, length};
ghost use Rattle.listing.specs.Listing.{limits};
ghost use Rattle.search_theory.specs.Search.{meet as meet_in, index_in};
ghost use Rattle.search_index.specs.Hash.{hash_of};
ghost use Rattle.search_index.specs.Rows.{row_of, rows, same_list};
ghost use Rattle.search_index.specs.Index.{Indexed};
ghost use Rattle.search_store.specs.Held.{state_in, Held, AddedRow, Moved};

use crate::{Found, Full, Store};
use listing::Index;
use search_index::row;

impl<'a> Store<'a> {
    // The flag at hand becomes that of row k.
    #[tactic(auto, using(search_index::proofs::Rows::row_length))]
    pub fn get_row(&self, k: usize, flag: &mut [Index])
        requires { k * length flag.old + length flag.old ≤ length self.now.table.now }
        ensures { flag.new ≡ row_of (length flag.old) self.now.table.now k }
    {
        flag.copy_from_slice(row::row_at(&*self.table, k, flag.len()));
    }

    // The row of a flag among the first n, n where it stands in none. Its hash is h.
    #[tactic(auto, using(search_index::proofs::Hash::hash_small))]
    fn find(&self, flag: &[Index], h: usize, n: u16) -> u16
        requires hash { h ≡ hash_of flag.now }
        requires indexed { Indexed (length flag.now) n self.now.table.now self.now.chains }
        ensures { result ≡ index_in same_list (rows (length flag.now) self.now.table.now n) flag.now }
    {
        let mut p = self.chains.heads[h];
        // No `for`: a chain goes on where the row at hand says.
        while p != 0 {
            let k = p - 1;
            if row::same_row(&*self.table, usize::from(k), flag) {
                return k;
            }
            p = self.chains.next[usize::from(k)];
        }
        n
    }

    // The flag, whose hash is h, goes into row n, with a byte.
    #[tactic(auto, using(search_index::proofs::Hash::hash_small))]
    fn add(&mut self, flag: &[Index], h: usize, byte: u8, n: u16)
        requires hash { h ≡ hash_of flag.now }
        requires fits { (n * length flag.now + length flag.now ≤ length self.now.table.now)
            × (n < length self.now.bytes.now) × (n < limits.flags) }
        ensures { AddedRow self.old flag.now h byte n self.new }
    {
        let at = usize::from(n);
        row::put_row(self.table, at, flag);
        self.bytes[at] = byte;
        self.chains.enter(h, n);
    }

    // The flag, whose hash is h, is met, and should have the byte.
    #[tactic(auto, using(crate::proofs::Meets::row_fits))]
    pub fn meet(&mut self, flag: &[Index], h: usize, byte: u8, s: Found) -> Result<Found, Full>
        requires hash { h ≡ hash_of flag.now }
        requires held { Held (length flag.now) self.now s.count }
        ensures { Moved (length flag.now) self.old s self.new result
            (meet_in same_list self.old.room byte (state_in (length flag.now) self.old s) flag.now) }
    {
        let n = s.count;
        let k = self.find(flag, h, n);
        if k < n {
            if s.place != 0 || self.bytes[usize::from(k)] == byte {
                return Ok(s);
            }
            return Ok(Found { place: n, ..s });
        }
        if self.room <= usize::from(n) {
            return Err(Full { found: s });
        }
        self.add(flag, h, byte, n);
        Ok(Found { count: n + 1, ..s })
    }
}
