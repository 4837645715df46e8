/// A property, one for each singular word of each row of the properties' table, in its order. What stands in brackets is the
/// argument, and what follows `of` the object.
#[derive(Clone, Copy)]
pub enum PropertyId {
    /// `true`: a boolean.
    True,
    /// `false`: a boolean.
    False,
    /// `second`: the interval of 1 second.
    Second,
    /// `minute`: the interval of 60 seconds.
    Minute,
    /// `hour`: the interval of 3,600 seconds.
    Hour,
    /// `day`: the interval of 86,400 seconds.
    Day,
    /// `now`: the moment, a time.
    Now,
    /// `file (text)`: the file at that path.
    FileAt,
    /// `folder (text)`: the folder at that path.
    FolderAt,
    /// `file (text) of folder`: the file of that name, one part of a path.
    FileNamed,
    /// `folder (text) of folder`: the folder of that name, one part of a path.
    FolderNamed,
    /// `file of folder`: each file in it.
    File,
    /// `folder of folder`: each folder in it.
    Folder,
    /// `descendant of folder`: each file in it and in the folders below it.
    Descendant,
    /// `name of` a file, folder, setting, process, package or system: a text.
    Name,
    /// `pathname of` a file or folder: a text.
    Pathname,
    /// `size of file`: an integer, in bytes.
    Size,
    /// `modification time of file`: a time.
    ModificationTime,
    /// `line of file`: each line, a text.
    Line,
    /// `line (integer) of file`: the line of that number from 1 on, a text.
    LineAt,
    /// `line containing (text) of file`: each line that contains it, a text.
    LineContaining,
    /// `sha1 of file`: the digest in hexadecimal digits, a text.
    Sha1,
    /// `sha256 of file`: the digest in hexadecimal digits, a text.
    Sha256,
    /// `operating system`: the system.
    OperatingSystem,
    /// `computer name`: a text.
    ComputerName,
    /// `process`, or `process (text)` for those of that name: each process.
    Process,
    /// `package`, or `package (text)` for those of that name: each package.
    Package,
    /// `version of` a package or system: a version.
    Version,
    /// `client`: the client.
    Client,
    /// `action`: the action that runs.
    Action,
    /// `setting of client`, or `setting (text) of client` for those of that name: each setting.
    Setting,
    /// `value of setting`: a text.
    Value,
    /// `effective date of setting`: a time.
    EffectiveDate,
    /// `integer in (integer, integer)`: each integer from the first to the second.
    IntegerIn,
    /// `length of text`: an integer, in characters.
    Length,
    /// `first (text) of text`: the leftmost part of the text with those bytes.
    First,
    /// `last (text) of text`: the rightmost part of the text with those bytes.
    Last,
    /// `preceding text of part`: what stands before it in its text.
    PrecedingText,
    /// `following text of part`: what stands behind it in its text.
    FollowingText,
    /// `substring separated by (text) of text`: each piece between such separators, a text.
    SubstringSeparatedBy,
    /// `parameter (text)`, with the action as an object or none: a text.
    Parameter,
    /// `exit code of action`: an integer, of the last program that it waited for.
    ExitCode,
    /// `item` and a number, `of tuple`: the part of that number, from 0.
    Item,
}
