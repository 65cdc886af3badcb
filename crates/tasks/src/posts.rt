//! The seats of the workers of a fed pool.
ghost use Rattle.std.specs.Prelude.{◌≡◌, ◌≤◌, [], length, map, vec_capacity};
ghost use Rattle.tasks.specs.Posts.{takes, gives};

/// The two seats of a worker: it takes tasks by the one, and sends their results by the other one.
#[derive(Drop)]
pub(crate) struct Post<S, U> {
    pub(crate) taker: S,
    pub(crate) giver: U,
}

/// A post of each two of these seats, in their order.
pub(crate) fn posts_of<S: Drop, U: Drop>(
    takers: Vec<S>,
    givers: Vec<U>,
    mut posts: Vec<Post<S, U>>,
) -> Vec<Post<S, U>>
    requires same { length takers.items ≡ length givers.items }
    requires none { posts.items ≡ [] }
    requires room { length takers.items ≤ vec_capacity posts }
    ensures takers { map takes result.items ≡ takers.items }
    ensures givers { map gives result.items ≡ givers.items }
{
    let mut givers = givers.into_iter();
    for taker in takers {
        let Some(giver) = givers.next() else {
            unreachable!()
        };
        posts.push_reserved(Post { taker, giver });
    }
    posts
}

/// The seats of these posts, those of either queue by themselves.
pub(crate) fn seats_of<S: Drop, U: Drop>(
    posts: Vec<Post<S, U>>,
    mut takers: Vec<S>,
    mut givers: Vec<U>,
) -> (Vec<S>, Vec<U>)
    requires none { (takers.items ≡ []) × (givers.items ≡ []) }
    requires room { length posts.items ≤ vec_capacity takers }
    requires room_too { length posts.items ≤ vec_capacity givers }
    ensures takers { result.0.items ≡ map takes posts.items }
    ensures givers { result.1.items ≡ map gives posts.items }
{
    for post in posts {
        let Post { taker, giver } = post;
        takers.push_reserved(taker);
        givers.push_reserved(giver);
    }
    (takers, givers)
}
