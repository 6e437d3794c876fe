//! The columns of the three tables of a book's file, and from them the texts of the statements on each.

use sqlite_schema::schema::Kind;

/// The columns of `acts`.
macro_rules! acts_table {
    ($make:ident) => {
        $make! {
            "acts" key "n";
            "session" "INTEGER NOT NULL",
            "clerk" "INTEGER NOT NULL",
            "request" "INTEGER NOT NULL",
            "day" "INTEGER NOT NULL",
            "body" "TEXT NOT NULL";
            "UNIQUE (clerk, request)" order "n"
        }
    };
}

/// The columns of `records`.
macro_rules! records_table {
    ($make:ident) => {
        $make! {
            "records" key "act";
            "household" "INTEGER NOT NULL",
            "number" "INTEGER NOT NULL",
            "kind" "INTEGER NOT NULL",
            "first" "INTEGER NOT NULL",
            "corrects" "INTEGER NOT NULL",
            "unit" "INTEGER NOT NULL",
            "persons" "INTEGER NOT NULL",
            "size" "INTEGER NOT NULL",
            "extremely" "INTEGER NOT NULL",
            "annual" "INTEGER NOT NULL",
            "adjusted" "INTEGER NOT NULL",
            "ttp" "INTEGER NOT NULL",
            "contract_rent" "INTEGER NOT NULL",
            "utility" "INTEGER NOT NULL",
            "assistance" "INTEGER NOT NULL",
            "event" "INTEGER",
            "notice" "INTEGER",
            "done" "INTEGER";
            "UNIQUE (household, number)" order "act"
        }
    };
}

/// The columns of `lines`.
macro_rules! lines_table {
    ($make:ident) => {
        $make! {
            "lines";
            "act" "INTEGER NOT NULL",
            "place" "INTEGER NOT NULL",
            "month" "INTEGER NOT NULL",
            "household" "INTEGER NOT NULL",
            "for_month" "INTEGER NOT NULL",
            "first" "INTEGER NOT NULL",
            "last" "INTEGER NOT NULL",
            "old" "INTEGER NOT NULL",
            "new" "INTEGER NOT NULL",
            "amount" "INTEGER NOT NULL";
            "PRIMARY KEY (act, place)" order "act, place"
        }
    };
}

macro_rules! create_text {
    ($table:literal $(key $key:literal)?; $($name:literal $type:literal),*; $rule:literal order $order:literal) => {
        concat!(
            "CREATE TABLE ", $table, " (",
            $($key, " INTEGER PRIMARY KEY, ",)? $($name, " ", $type, ", ",)* $rule,
            ") STRICT"
        )
    };
}

macro_rules! select_text {
    ($table:literal $(key $key:literal)?; $first:literal $is:literal $(, $name:literal $type:literal)*; $rule:literal order $order:literal) => {
        concat!("SELECT ", $($key, ", ",)? $first, $(", ", $name,)* " FROM ", $table, " ORDER BY ", $order)
    };
}

/// A parameter for each column.
macro_rules! with_parameters {
    ([$($n:literal)*] [$($rest:literal)*] [] $head:tt) => {
        insert_text!(@text $head [$($n)*])
    };
    ([$($n:literal)*] [$next:literal $($rest:literal)*] [$column:literal $($columns:literal)*] $head:tt) => {
        with_parameters!([$($n)* $next] [$($rest)*] [$($columns)*] $head)
    };
}

macro_rules! insert_text {
    (@text [$table:literal $first:literal $($name:literal)*] [$($n:literal)*]) => {
        concat!("INSERT INTO ", $table, " (", $first, $(", ", $name,)* ") VALUES (", $($n,)* ")")
    };
    ($table:literal $(key $key:literal)?; $($name:literal $type:literal),*; $rule:literal order $order:literal) => {
        with_parameters!(
            []
            [
                "?1" ", ?2" ", ?3" ", ?4" ", ?5" ", ?6" ", ?7" ", ?8" ", ?9" ", ?10" ", ?11" ", ?12"
                ", ?13" ", ?14" ", ?15" ", ?16" ", ?17" ", ?18" ", ?19" ", ?20" ", ?21" ", ?22" ", ?23" ", ?24"
            ]
            [$($key)? $($name)*]
            [$table $($key)? $($name)*]
        )
    };
}

/// A column's name, its type, and whether it is never NULL.
pub type SqlColumn = (&'static str, Kind, bool);

macro_rules! column_of {
    ($name:literal "INTEGER NOT NULL") => {
        ($name, Kind::Integer, true)
    };
    ($name:literal "TEXT NOT NULL") => {
        ($name, Kind::Text, true)
    };
    ($name:literal "INTEGER") => {
        ($name, Kind::Integer, false)
    };
}

macro_rules! column_list {
    ($table:literal $(key $key:literal)?; $($name:literal $type:tt),*; $rule:literal order $order:literal) => {
        &[$(($key, Kind::Integer, false),)? $(column_of!($name $type)),*]
    };
}

pub(crate) const CREATE_ACTS: &str = acts_table!(create_text);

pub(crate) const CREATE_RECORDS: &str = records_table!(create_text);

pub(crate) const CREATE_LINES: &str = lines_table!(create_text);

pub(crate) const INSERT_ACT: &str = acts_table!(insert_text);

pub(crate) const INSERT_RECORD: &str = records_table!(insert_text);

pub(crate) const INSERT_LINE: &str = lines_table!(insert_text);

pub(crate) const SELECT_ACTS: &str = acts_table!(select_text);

pub(crate) const SELECT_RECORDS: &str = records_table!(select_text);

pub(crate) const SELECT_LINES: &str = lines_table!(select_text);

pub const ACT_COLUMNS: &[SqlColumn] = acts_table!(column_list);

pub const RECORD_COLUMNS: &[SqlColumn] = records_table!(column_list);

pub const LINE_COLUMNS: &[SqlColumn] = lines_table!(column_list);
