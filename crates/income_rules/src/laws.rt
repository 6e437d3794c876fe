//! The law that incomes are sums over the whole list.

ghost use Rattle.income_rules.specs.WholeList.{EarnedIsOfWholeList, UnearnedIsOfWholeList, TestsExist};

/// Earned and unearned income are sums over the whole list of incomes, each kind taken once. It does nothing.
pub fn income_is_of_whole_list()
    ensures earned { EarnedIsOfWholeList }
    ensures unearned { UnearnedIsOfWholeList }
    ensures tests { TestsExist }
{}
