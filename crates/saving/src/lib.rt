// A file saved under its name, whole or not at all: it is written under a temporary name in the same folder, brought to the disk, and then renamed. What stands under the name already is looked at
// first: an ordinary file hands on its permissions and its owner, and anything else stays as it is. No contract can say what the system does; the functions that make a name say what they answer.
#![tactic(auto)]

ghost use Rattle.std.specs.Prelude.{◌≡◌, ◌≢◌, ℕ, ◌+◌, ◌-◌, ◌<◌, ◌≤◌, ◌++◌, MatchOption, slice_index, length, take, drop};
ghost use Rattle.saving.specs.Names.{slash, folder_end, temporary_of};

use std::fs::{File, Metadata, OpenOptions, Permissions};
use std::io::{Error, ErrorKind, Result, Write};
use std::os::fd::AsFd;
use std::os::unix::fs::{MetadataExt, OpenOptionsExt, PermissionsExt, fchown};
use std::random::RandomSource;
use std::rt::Files;

const SLASH: u8 = 47;

// The name of the file that is written first, in the folder of the one asked for; its last six letters are filled in.
const UNFINISHED: [u8; 17] = *b"unfinished.XXXXXX";

// What stands for them.
const LETTERS: [u8; 62] = *b"abcdefghijklmnopqrstuvwxyzABCDEFGHIJKLMNOPQRSTUVWXYZ0123456789";

// How many names are tried where files have them already.
const TRIES: u32 = 238_328;

// Linux's errors for a name of another form, and for names that are all taken.
const INVALID_ARGUMENT: i32 = 22;

const FILE_EXISTS: i32 = 17;

// Room for a folder and that name.
const ROOM: usize = 272;

// The mode of the file that is written first: its owner alone reads and writes.
const FIRST_MODE: u32 = 0o600;

// The mode of a file that is new under its name: its owner reads and writes, others read.
const NEW_MODE: u32 = 0o644;

// The bits of a mode that are handed on: who may read, write and run the file.
const PERMISSIONS: u32 = 0o777;

// What cannot be done, in a message.
const CANNOT: [u8; 13] = *b"cannot write ";

// ---- what stands under a name

// What stands under the name; of a link, the link itself.
fn standing_under(rt: &HostRuntime, name: &[u8]) -> Result<Metadata> {
    rt.symlink_metadata(files::path_of(name)?)
}

// The mode, owner and group that a file is to have. An owner or a group that is not given stays as it is.
#[derive(Clone, Copy)]
struct Leave {
    mode: u32,
    owner: Option<u32>,
    group: Option<u32>,
}

// An ordinary file may be replaced, and hands on its permissions, owner and group. Anything else stays: standard error says so.
fn leave_of(rt: &HostRuntime, name: &[u8], there: Metadata) -> Option<Leave>
    requires { length name.now < 256 }
{
    if !there.is_file() {
        files::refuse(rt, &CANNOT, name, b": it is no ordinary file\n");
        return None;
    }
    Some(Leave {
        mode: there.mode() & PERMISSIONS,
        owner: Some(there.uid()),
        group: Some(there.gid()),
    })
}

// Leave to save a file under the name, where it is given: a new name may be taken, and an ordinary file replaced.
fn leave_for(rt: &HostRuntime, name: &[u8]) -> Option<Leave>
    requires { length name.now < 256 }
{
    match standing_under(rt, name) {
        Ok(there) => leave_of(rt, name, there),
        Err(e) if e.kind() == ErrorKind::NotFound => Some(Leave {
            mode: NEW_MODE,
            owner: None,
            group: None,
        }),
        Err(e) => {
            files::fail(rt, &CANNOT, name, e);
            None
        }
    }
}

// ---- the temporary name

// Where the name's last slash stands, if it has one.
fn last_slash(name: &[u8]) -> Option<usize>
    ensures { MatchOption result ((k : ℕ) → k < length name.now → slice_index name.now k ≢ slash) (λ i. (i < length name.now) × (slice_index name.now i ≡ slash) × ((k : ℕ) → i < k → k < length name.now → slice_index name.now k ≢ slash)) }
{
    name.iter().rposition(|b| *b == SLASH)
}

// Where the name's last part begins, behind its folder.
fn folder_end(name: &[u8]) -> usize
    requires { length name.now < 256 }
    ensures { (result ≡ folder_end name.now) × (result ≤ length name.now) }
{
    match last_slash(name) {
        Some(i) => i + 1,
        None => 0,
    }
}

// The name's folder and the temporary name at the front of the memory; the place behind both.
fn put_temporary(name: &[u8], memory: &mut [u8]) -> usize
    requires { (length name.now < 256) × (length name.now + 17 ≤ length memory.old) }
    ensures { (memory.new ≡ temporary_of name.now ++ drop result memory.old) × (result ≡ length (temporary_of name.now)) × (result ≤ length memory.new) }
{
    let n = folder_end(name);
    memory[0..n].copy_from_slice(&name[0..n]);
    memory[n..n + 17].copy_from_slice(&UNFINISHED);
    n + 17
}

// Fills the last six letters in; what stands before them stays.
fn fill_in(rt: &HostRuntime, temporary: &mut [u8]) -> Result<()>
    requires { 6 ≤ length temporary.old }
    ensures { take (length temporary.old - 6) temporary.new ≡ take (length temporary.old - 6) temporary.old }
{
    let mut drawn = [0u8; 6];
    rt.fill_bytes(&mut drawn)?;
    let start = temporary.len() - 6;
    for (to, b) in temporary[start..].iter_mut().zip(drawn) {
        *to = LETTERS[(b % 62) as usize];
    }
    Ok(())
}

// ---- writing

// Opens a new file under the name.
fn open_new(rt: &HostRuntime, temporary: &[u8]) -> Result<File> {
    OpenOptions::new()
        .read(true)
        .write(true)
        .create_new(true)
        .mode(FIRST_MODE)
        .open(rt, files::path_of(temporary)?)
}

// Opens a new file under the temporary name with its last six letters filled in, and with other letters where a file has that name already. A name that does not end in six letters X is refused.
fn create(rt: &HostRuntime, temporary: &mut [u8]) -> Result<File> {
    if !temporary.ends_with(b"XXXXXX") {
        return Err(Error::from_raw_os_error(INVALID_ARGUMENT));
    }
    for _ in 0..TRIES {
        fill_in(rt, temporary)?;
        match open_new(rt, temporary) {
            Err(e) if e.kind() == ErrorKind::AlreadyExists => {}
            opened => return opened,
        }
    }
    Err(Error::from_raw_os_error(FILE_EXISTS))
}

// Gives the open file its owner and group as far as the system lets: to another owner, that is for root alone.
fn hand_over(file: &File, owner: Option<u32>, group: Option<u32>) {
    if fchown(file.as_fd(), owner, group).is_err() {
        let _ = fchown(file.as_fd(), None, group);
    }
}

// Writes the bytes to the open file, as far as the disk. The mode comes after the owner, since a change of owner may change it.
fn write_whole(file: &mut File, content: &[u8], leave: Leave) -> Result<()> {
    file.write_all(content)?;
    hand_over(file, leave.owner, leave.group);
    file.set_permissions(Permissions::from_mode(leave.mode))?;
    file.sync_all()
}

// Writes the bytes to the open file and closes it.
fn write_out(mut file: File, content: &[u8], leave: Leave) -> Result<()> {
    write_whole(&mut file, content, leave)
}

// Gives the file under `temporary` the name.
fn rename(rt: &HostRuntime, temporary: &[u8], name: &[u8]) -> Result<()> {
    rt.rename(files::path_of(temporary)?, files::path_of(name)?)
}

// Removes the file under `temporary`, which is not wanted any more. The reason for that was told before, since this may have one of its own.
fn remove(rt: &HostRuntime, temporary: &[u8]) {
    if let Err(e) = unlink(rt, temporary) {
        files::say(rt, b"cannot remove ");
        files::explain(rt, temporary, e);
    }
}

fn unlink(rt: &HostRuntime, temporary: &[u8]) -> Result<()> {
    rt.remove_file(files::path_of(temporary)?)
}

// Writes the bytes to the new file `temporary`, which is open, and then gives it the name. Where the system refuses any of that, standard error says why, and no file is left but what stood under
// the name, unless the new one cannot be removed.
fn save_open(
    rt: &HostRuntime,
    file: File,
    temporary: &[u8],
    name: &[u8],
    content: &[u8],
    leave: Leave,
) -> bool
    requires { length name.now < 256 }
{
    if let Err(e) = write_out(file, content, leave) {
        files::fail(rt, &CANNOT, name, e);
        remove(rt, temporary);
        return false;
    }
    if let Err(e) = rename(rt, temporary, name) {
        files::fail(rt, &CANNOT, name, e);
        remove(rt, temporary);
        return false;
    }
    true
}

// The same under `temporary`, whose last six letters are filled in.
fn save_by(
    rt: &HostRuntime,
    temporary: &mut [u8],
    name: &[u8],
    content: &[u8],
    leave: Leave,
) -> bool
    requires { length name.now < 256 }
{
    match create(rt, temporary) {
        Ok(file) => save_open(rt, file, temporary, name, content, leave),
        Err(e) => {
            files::fail(rt, &CANNOT, name, e);
            false
        }
    }
}

// The bytes as the file of a name that a file may have. One that ends in a carriage return is refused too: nobody means it.
fn save_named(rt: &HostRuntime, name: &[u8], content: &[u8]) -> bool
    requires { length name.now < 256 }
{
    if files::ends_in_return(name) {
        files::refuse(rt, &CANNOT, name, b": its name ends in a carriage return\n");
        return false;
    }
    match leave_for(rt, name) {
        None => false,
        Some(leave) => {
            let mut temporary = [0u8; ROOM];
            let end = put_temporary(name, &mut temporary);
            save_by(rt, &mut temporary[0..end], name, content, leave)
        }
    }
}

// The bytes as the named file, whole or not at all. Where there can be no such file or the system refuses, standard error says so, and it is false.
pub fn save(rt: &HostRuntime, name: &[u8], content: &[u8]) -> bool {
    if !files::is_name(rt, b"cannot write the file", name) {
        return false;
    }
    save_named(rt, name, content)
}
